//! The sparse part of an accessor: items that differ from those of its view (glTF 2.0, section
//! 3.6.2.3, "Sparse Accessors").
ghost use Rattle.std.specs.Prelude.{IfOk};
ghost use Rattle.gltf_json_record.specs.Copy.{IsCopy};

use crate::accessor::ComponentType;
use gltf_json_record::copy::Copies;
use gltf_json_record::error::Error;
use gltf_json_record::extras::Extras;
use gltf_json_record::index::Index;
use gltf_json_record::lent::{Maybe, Member};
use gltf_json_record::read::{FromValue, object, optional, or_default, required, wrong_kind};
use gltf_json_record::validation::Checked;
use gltf_json_record::{copy_record, kinds, read_record};
use serde_json::Value;
use std::alloc::{AllocError, Global};

/// Where the positions of the differing items are (glTF 2.0, section 5.3, "Accessor Sparse
/// Indices").
#[derive(Debug, Drop)]
pub struct Indices {
    /// The view that holds them: `bufferView`.
    pub buffer_view: Index<kinds::View>,
    /// The distance in bytes from the start of the view: `byteOffset`, 0 where absent.
    pub byte_offset: u64,
    /// Their type, one of the unsigned ones: `componentType`.
    pub component_type: Checked<ComponentType>,
    /// What the application stores here: `extras`.
    pub extras: Extras,
}

impl Indices {
    ghost use Rattle.gltf_json_geometry.specs.Accessors.{indices};

    /// A copy of the record, which shows what this one shows.
    #[tactic(auto, unfolding(crate::specs::Accessors::indices))]
    pub fn clone(&self, alloc: Global) -> Result<Indices, AllocError>
        ensures { IfOk result (IsCopy indices self.now) }
    {
        copy_record!(self, alloc; Indices { buffer_view, byte_offset, component_type, } with {
            extras: Maybe,
        })
    }
}

impl Copies for Indices {
    fn copy(&self, alloc: Global) -> Result<Indices, AllocError> {
        self.clone(alloc)
    }
}

impl FromValue for Indices {
    ghost use Rattle.gltf_json_geometry.specs.Accessors.{indices};

    ghost kind = { indices };

    #[tactic(auto, unfolding(crate::specs::Accessors::indices))]
    fn from_value(alloc: Global, value: &Value) -> Result<Indices, Error> {
        object(alloc, value)?;
        Ok(Indices {
            buffer_view: required(alloc, value, "bufferView")?,
            byte_offset: or_default(alloc, value, "byteOffset", 0)?,
            component_type: required::<IndexComponent>(alloc, value, "componentType")?.0,
            extras: optional(alloc, value, "extras")?,
        })
    }
}

/// Where the differing items are (glTF 2.0, section 5.4, "Accessor Sparse Values").
#[derive(Debug, Drop)]
pub struct Values {
    /// The view that holds them: `bufferView`.
    pub buffer_view: Index<kinds::View>,
    /// The distance in bytes from the start of the view: `byteOffset`, 0 where absent.
    pub byte_offset: u64,
    /// What the application stores here: `extras`.
    pub extras: Extras,
}

impl Values {
    ghost use Rattle.gltf_json_geometry.specs.Accessors.{values};

    /// A copy of the record, which shows what this one shows.
    #[tactic(auto, unfolding(crate::specs::Accessors::values))]
    pub fn clone(&self, alloc: Global) -> Result<Values, AllocError>
        ensures { IfOk result (IsCopy values self.now) }
    {
        copy_record!(self, alloc; Values { buffer_view, byte_offset, } with {
            extras: Maybe,
        })
    }
}

impl Copies for Values {
    fn copy(&self, alloc: Global) -> Result<Values, AllocError> {
        self.clone(alloc)
    }
}

/// The rows of the values of a sparse accessor, for a macro that reads a record by them:
/// `values_rows!(read_record!(alloc, value))`.
#[macro_export]
macro_rules! values_rows {
    ($read:ident!($($from:ident),*)) => {
        $read!($($from),*; Values {
            buffer_view: required("bufferView"),
            byte_offset: or_default("byteOffset", 0),
            extras: optional("extras"),
        })
    };
}

impl FromValue for Values {
    ghost use Rattle.gltf_json_geometry.specs.Accessors.{values};

    ghost kind = { values };

    #[tactic(auto, unfolding(crate::specs::Accessors::values))]
    fn from_value(alloc: Global, value: &Value) -> Result<Values, Error> {
        values_rows!(read_record!(alloc, value))
    }
}

/// The items that differ (glTF 2.0, section 5.2, "Accessor Sparse").
#[derive(Debug, Drop)]
pub struct Sparse {
    /// How many differ: `count`.
    pub count: u64,
    /// Their positions: `indices`.
    pub indices: Indices,
    /// The items themselves: `values`.
    pub values: Values,
    /// What the application stores here: `extras`.
    pub extras: Extras,
}

impl Sparse {
    ghost use Rattle.gltf_json_geometry.specs.Accessors.{sparse};

    /// A copy of the record, which shows what this one shows.
    #[tactic(auto, unfolding(crate::specs::Accessors::sparse))]
    pub fn clone(&self, alloc: Global) -> Result<Sparse, AllocError>
        ensures { IfOk result (IsCopy sparse self.now) }
    {
        copy_record!(self, alloc; Sparse { count, } with {
            indices: Member,
            values: Member,
            extras: Maybe,
        })
    }
}

impl Copies for Sparse {
    fn copy(&self, alloc: Global) -> Result<Sparse, AllocError> {
        self.clone(alloc)
    }
}

/// The rows of the sparse part of an accessor, for a macro that reads a record by them:
/// `sparse_rows!(read_record!(alloc, value))`.
#[macro_export]
macro_rules! sparse_rows {
    ($read:ident!($($from:ident),*)) => {
        $read!($($from),*; Sparse {
            count: required("count"),
            indices: required("indices"),
            values: required("values"),
            extras: optional("extras"),
        })
    };
}

impl FromValue for Sparse {
    ghost use Rattle.gltf_json_geometry.specs.Accessors.{sparse};

    ghost kind = { sparse };

    #[tactic(auto, unfolding(crate::specs::Accessors::sparse))]
    fn from_value(alloc: Global, value: &Value) -> Result<Sparse, Error> {
        sparse_rows!(read_record!(alloc, value))
    }
}

// The type of sparse indices: `ComponentType` with a table of its own.
#[derive(Clone, Copy, Debug, PartialEq, Eq)]
pub(crate) struct IndexComponent(pub Checked<ComponentType>);

impl FromValue for IndexComponent {
    ghost use Rattle.gltf_json_record.specs.Scalars.{plain};
    ghost use Rattle.gltf_json_geometry.specs.Codes.{index_component_type};

    ghost kind = { plain index_component_type (λ component. component.0) };

    fn from_value(alloc: Global, value: &Value) -> Result<IndexComponent, Error> {
        match value.as_u64() {
            Some(5121) => Ok(IndexComponent(Checked::Valid(ComponentType::U8))),
            Some(5123) => Ok(IndexComponent(Checked::Valid(ComponentType::U16))),
            Some(5125) => Ok(IndexComponent(Checked::Valid(ComponentType::U32))),
            Some(_) => Ok(IndexComponent(Checked::Invalid)),
            None => Err(wrong_kind(alloc)),
        }
    }
}
