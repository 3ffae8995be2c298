//! Accessors: typed items in the bytes of a view (glTF 2.0, section 3.6.2, "Accessors").
pub mod sparse;

ghost use Rattle.std.specs.Prelude.{IfOk};
ghost use Rattle.gltf_json_record.specs.Copy.{IsCopy};

use crate::accessor::sparse::Sparse;
use gltf_json_record::boxed::Boxed;
use gltf_json_record::copy::Copies;
use gltf_json_record::error::Error;
use gltf_json_record::extensions::Others;
use gltf_json_record::extras::Extras;
use gltf_json_record::index::Index;
use gltf_json_record::lent::Maybe;
use gltf_json_record::read::FromValue;
use gltf_json_record::validation::{Checked, Code};
use gltf_json_record::{copy_record, kinds, read_record};
use serde_json::Value;
use std::alloc::{AllocError, Global};

/// The type of each component of an item (glTF 2.0, section 5.1.3, `accessor.componentType`).
#[derive(Clone, Copy, Debug, PartialEq, Eq)]
pub enum ComponentType {
    /// A signed number of one byte: the code 5120.
    I8,
    /// An unsigned number of one byte: the code 5121.
    U8,
    /// A signed number of two bytes: the code 5122.
    I16,
    /// An unsigned number of two bytes: the code 5123.
    U16,
    /// An unsigned number of four bytes: the code 5125.
    U32,
    /// A floating-point number of four bytes: the code 5126.
    F32,
}

impl ComponentType {
    ghost use Rattle.std.specs.Prelude.{◌≡◌};
    ghost use Rattle.gltf_json_geometry.specs.Names.{component_type_name};

    /// The name of its code (glTF 2.0, section 5.1.3, `accessor.componentType`), as `FLOAT`.
    pub fn as_str(&self) -> &'static str
        ensures { result.now ≡ component_type_name self.now }
    {
        match self {
            ComponentType::I8 => "BYTE",
            ComponentType::U8 => "UNSIGNED_BYTE",
            ComponentType::I16 => "SHORT",
            ComponentType::U16 => "UNSIGNED_SHORT",
            ComponentType::U32 => "UNSIGNED_INT",
            ComponentType::F32 => "FLOAT",
        }
    }
}

impl Code for ComponentType {
    ghost use Rattle.gltf_json_geometry.specs.Codes.{component_type};

    ghost reads = { component_type };

    fn read(value: &Value) -> Option<Checked<ComponentType>> {
        Some(match value.as_u64()? {
            5120 => Checked::Valid(ComponentType::I8),
            5121 => Checked::Valid(ComponentType::U8),
            5122 => Checked::Valid(ComponentType::I16),
            5123 => Checked::Valid(ComponentType::U16),
            5125 => Checked::Valid(ComponentType::U32),
            5126 => Checked::Valid(ComponentType::F32),
            _ => Checked::Invalid,
        })
    }
}

/// The components of an item (glTF 2.0, section 5.1.6, `accessor.type`).
#[derive(Clone, Copy, Debug, PartialEq, Eq)]
pub enum Type {
    /// One component: `SCALAR`.
    Scalar,
    /// Two: `VEC2`.
    Vec2,
    /// Three: `VEC3`.
    Vec3,
    /// Four: `VEC4`.
    Vec4,
    /// Two columns of two: `MAT2`.
    Mat2,
    /// Three columns of three: `MAT3`.
    Mat3,
    /// Four columns of four: `MAT4`.
    Mat4,
}

impl Type {
    ghost use Rattle.std.specs.Prelude.{◌≡◌, Some};
    ghost use Rattle.serde_json.specs.Data.{string};
    ghost use Rattle.gltf_json_record.specs.declared.validation.Checked.TheVariants.{Valid};
    ghost use Rattle.gltf_json_geometry.specs.Codes.{dimensions};

    /// The string that stands for it in JSON (glTF 2.0, section 5.1.6, `accessor.type`), as `VEC3`.
    pub fn as_str(&self) -> &'static str
        ensures { dimensions (string result.now) ≡ Some (Valid self.now) }
    {
        match self {
            Type::Scalar => "SCALAR",
            Type::Vec2 => "VEC2",
            Type::Vec3 => "VEC3",
            Type::Vec4 => "VEC4",
            Type::Mat2 => "MAT2",
            Type::Mat3 => "MAT3",
            Type::Mat4 => "MAT4",
        }
    }
}

impl Code for Type {
    ghost use Rattle.gltf_json_geometry.specs.Codes.{dimensions};

    ghost reads = { dimensions };

    fn read(value: &Value) -> Option<Checked<Type>> {
        Some(match value.as_str()? {
            "SCALAR" => Checked::Valid(Type::Scalar),
            "VEC2" => Checked::Valid(Type::Vec2),
            "VEC3" => Checked::Valid(Type::Vec3),
            "VEC4" => Checked::Valid(Type::Vec4),
            "MAT2" => Checked::Valid(Type::Mat2),
            "MAT3" => Checked::Valid(Type::Mat3),
            "MAT4" => Checked::Valid(Type::Mat4),
            _ => Checked::Invalid,
        })
    }
}

/// A typed view into the bytes of a buffer view (glTF 2.0, section 5.1, "Accessor").
#[derive(Debug, Drop)]
pub struct Accessor {
    /// The view that the items stand in: `bufferView`.
    pub buffer_view: Option<Index<kinds::View>>,
    /// The distance in bytes from the start of the view to the first item: `byteOffset`. It stands
    /// for 0 where absent.
    pub byte_offset: Option<u64>,
    /// The type of each component: `componentType`.
    pub component_type: Checked<ComponentType>,
    /// Whether whole numbers stand for fractions: `normalized`, false where absent.
    pub normalized: bool,
    /// The number of items: `count`.
    pub count: u64,
    /// The components of an item: `type`.
    pub type_: Checked<Type>,
    /// The greatest value of each component, as it stands: `max`.
    pub max: Option<Value>,
    /// The least value of each component, as it stands: `min`.
    pub min: Option<Value>,
    /// The items that differ from those of the view: `sparse`.
    pub sparse: Option<Boxed<Sparse>>,
    /// A name given by the user: `name`.
    pub name: Option<String>,
    /// The extensions: `extensions`. None is known here.
    pub extensions: Option<Boxed<Others>>,
    /// What the application stores here: `extras`.
    pub extras: Extras,
}

impl Accessor {
    ghost use Rattle.gltf_json_geometry.specs.Accessors.{accessor};

    /// A copy of the record, which shows what this one shows.
    #[tactic(auto, unfolding(crate::specs::Accessors::accessor))]
    pub fn clone(&self, alloc: Global) -> Result<Accessor, AllocError>
        ensures { IfOk result (IsCopy accessor self.now) }
    {
        copy_record!(self, alloc; Accessor {
            buffer_view, byte_offset, component_type, normalized, count, type_,
        } with {
            max: Maybe,
            min: Maybe,
            sparse: Maybe,
            name: Maybe,
            extensions: Maybe,
            extras: Maybe,
        })
    }
}

impl Copies for Accessor {
    fn copy(&self, alloc: Global) -> Result<Accessor, AllocError> {
        self.clone(alloc)
    }
}

/// The rows of an accessor, for a macro that reads a record by them:
/// `accessor_rows!(read_record!(alloc, value))`.
#[macro_export]
macro_rules! accessor_rows {
    ($read:ident!($($from:ident),*)) => {
        $read!($($from),*; Accessor {
            buffer_view: optional("bufferView"),
            byte_offset: optional("byteOffset"),
            component_type: required("componentType"),
            normalized: or_default("normalized", false),
            count: required("count"),
            type_: required("type"),
            max: optional("max"),
            min: optional("min"),
            sparse: optional("sparse"),
            name: optional("name"),
            extensions: optional("extensions"),
            extras: optional("extras"),
        })
    };
}

impl FromValue for Accessor {
    ghost use Rattle.gltf_json_geometry.specs.Accessors.{accessor};

    ghost kind = { accessor };

    #[tactic(auto, unfolding(crate::specs::Accessors::accessor))]
    fn from_value(alloc: Global, value: &Value) -> Result<Accessor, Error> {
        accessor_rows!(read_record!(alloc, value))
    }
}
