//! The sparse part of an accessor: items that differ from those of its view (glTF 2.0, section
//! 3.6.2.3, "Sparse Accessors").

ghost use Rattle.std.specs.Prelude.{◌≡◌, ◌≤◌};
ghost use Rattle.std.specs.Option.{option_copied};
ghost use Rattle.gltf_validation.specs.Accessors.{sparse_rules};
ghost use Rattle.gltf_validation.specs.Documents.{counts_of};
ghost use Rattle.gltf_validation.specs.Rules.{Hold};

use crate::buffer::View;
use crate::inner::Inner;
use gltf_json::Value;
use gltf_json::accessor::{ComponentType, sparse};
use gltf_json::boxed::lent;
use gltf_json::validation::Checked;
use gltf_rules::{Records, Valid};

/// The type of stored indices (glTF 2.0, section 5.3.3, `accessor.sparse.indices.componentType`).
#[derive(Clone, Copy, Debug, PartialEq, Eq)]
pub enum IndexType {
    /// One byte.
    U8 = 5121,
    /// Two bytes.
    U16 = 5123,
    /// Four bytes.
    U32 = 5125,
}

impl IndexType {
    ghost use Rattle.gltf_handles.specs.Sizes.{index_size};

    /// The bytes of an index.
    pub fn size(&self) -> usize
        ensures gives { result ≡ index_size self.now }
        ensures small { result ≤ 4 }
    {
        match self {
            IndexType::U8 => 1,
            IndexType::U16 => 2,
            IndexType::U32 => 4,
        }
    }
}

/// The items of an accessor that differ (glTF 2.0, section 5.2, "Accessor Sparse").
#[derive_where(Clone, Copy)]
#[derive_where(Debug; D)]
pub struct Sparse<'a, D: Records = Valid> {
    inner: Inner<'a, sparse::Sparse, D>,
}

impl<'a, D: Records> Sparse<'a, D> {
    ghost use Rattle.gltf_handles.specs.Accessors.{sparse_handle, IsSparse, IsIndices, IsValues};

    /// The sparse part of an accessor.
    pub(crate) fn new(document: &'a D, json: &'a sparse::Sparse) -> Self
        requires { Hold (sparse_rules (counts_of (D.root document.now)) json.now) }
        ensures { IsSparse (D.root document.now) json.now result }
    {
        Sparse {
            inner: Inner { document, json },
        }
    }

    /// How many items are stored.
    pub fn count(&self) -> usize
        ensures { result ≡ (sparse_handle self.now).json.count }
    {
        self.inner.json.count as usize
    }

    /// Where the positions of the stored items are.
    pub fn indices(&self) -> Indices<'a, D>
        ensures { IsIndices (sparse_handle self.now).document
            (sparse_handle self.now).json.indices result }
    {
        Indices {
            inner: Inner {
                document: self.inner.document,
                json: &self.inner.json.indices,
            },
        }
    }

    /// Where the stored items are.
    pub fn values(&self) -> Values<'a, D>
        ensures { IsValues (sparse_handle self.now).document
            (sparse_handle self.now).json.values result }
    {
        Values {
            inner: Inner {
                document: self.inner.document,
                json: &self.inner.json.values,
            },
        }
    }

    /// What the application stores here: `extras`.
    pub fn extras(&self) -> Option<&'a Value>
        ensures { option_copied result ≡ (sparse_handle self.now).json.extras }
    {
        lent(&self.inner.json.extras)
    }
}

/// Where the positions of the stored items are (glTF 2.0, section 5.3, "Accessor Sparse Indices").
#[derive_where(Clone, Copy)]
#[derive_where(Debug; D)]
pub struct Indices<'a, D: Records = Valid> {
    inner: Inner<'a, sparse::Indices, D>,
}

impl<'a, D: Records> Indices<'a, D> {
    ghost use Rattle.gltf_handles.specs.Buffers.{IsView};
    ghost use Rattle.gltf_handles.specs.Sizes.{index_type, Means};
    ghost use Rattle.gltf_handles.specs.Accessors.{indices_handle};

    /// The view that holds them.
    pub fn view(&self) -> View<'a, D>
        ensures { IsView (indices_handle self.now).document
            (indices_handle self.now).json.buffer_view result }
    {
        View::new(self.inner.document, self.inner.json.buffer_view.value())
    }

    /// The distance in bytes from the start of the view to the first index: `byteOffset`, 0 where
    /// that is absent.
    pub fn offset(&self) -> usize
        ensures { result ≡ (indices_handle self.now).json.byte_offset }
    {
        self.inner.json.byte_offset as usize
    }

    /// The type of each index: `componentType`.
    pub fn index_type(&self) -> IndexType
        ensures { Means index_type (indices_handle self.now).json.component_type result }
    {
        match self.inner.json.component_type {
            Checked::Valid(ComponentType::U8) => IndexType::U8,
            Checked::Valid(ComponentType::U16) => IndexType::U16,
            Checked::Valid(ComponentType::U32) => IndexType::U32,
            _ => unreachable!(),
        }
    }

    /// What the application stores here: `extras`.
    pub fn extras(&self) -> Option<&'a Value>
        ensures { option_copied result ≡ (indices_handle self.now).json.extras }
    {
        lent(&self.inner.json.extras)
    }
}

/// Where the stored items are (glTF 2.0, section 5.4, "Accessor Sparse Values").
#[derive_where(Clone, Copy)]
#[derive_where(Debug; D)]
pub struct Values<'a, D: Records = Valid> {
    inner: Inner<'a, sparse::Values, D>,
}

impl<'a, D: Records> Values<'a, D> {
    ghost use Rattle.gltf_handles.specs.Buffers.{IsView};
    ghost use Rattle.gltf_handles.specs.Accessors.{values_handle};

    /// The view that holds them.
    pub fn view(&self) -> View<'a, D>
        ensures { IsView (values_handle self.now).document
            (values_handle self.now).json.buffer_view result }
    {
        View::new(self.inner.document, self.inner.json.buffer_view.value())
    }

    /// The distance in bytes from the start of the view to the first item: `byteOffset`, 0 where
    /// that is absent.
    pub fn offset(&self) -> usize
        ensures { result ≡ (values_handle self.now).json.byte_offset }
    {
        self.inner.json.byte_offset as usize
    }

    /// What the application stores here: `extras`.
    pub fn extras(&self) -> Option<&'a Value>
        ensures { option_copied result ≡ (values_handle self.now).json.extras }
    {
        lent(&self.inner.json.extras)
    }
}
