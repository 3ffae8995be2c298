//! Accessors, and what their items are made of (glTF 2.0, section 3.6.2, "Accessors").

pub mod sparse;

ghost use Rattle.std.specs.Prelude.{◌≡◌, ◌<◌, ◌≤◌, length, unwrap_or};
ghost use Rattle.std.specs.Option.{option_copied};
ghost use Rattle.gltf_handles.specs.Members.{text, unknown_extensions, extension_named, Follows};

use crate::accessor::sparse::Sparse;
use crate::buffer::View;
use crate::inner::Inner;
use crate::member::{meaning, unknown_extensions};
use gltf_json::accessor::{ComponentType, Type};
use gltf_json::boxed::lent;
use gltf_json::{Map, Value, accessor, kinds};
use gltf_rules::{Records, Valid};

/// The type of each component of an item (glTF 2.0, section 3.6.2.2, "Accessor Data Types").
#[derive(Clone, Copy, Debug, PartialEq, Eq)]
pub enum DataType {
    /// A signed number of one byte.
    I8,
    /// An unsigned number of one byte.
    U8,
    /// A signed number of two bytes.
    I16,
    /// An unsigned number of two bytes.
    U16,
    /// An unsigned number of four bytes.
    U32,
    /// A number of single precision, of four bytes.
    F32,
}

impl DataType {
    ghost use Rattle.gltf_handles.specs.Sizes.{component_size};

    /// The bytes of a component.
    pub fn size(&self) -> usize
        ensures gives { result ≡ component_size self.now }
        ensures small { result ≤ 4 }
    {
        match self {
            DataType::I8 | DataType::U8 => 1,
            DataType::I16 | DataType::U16 => 2,
            DataType::U32 | DataType::F32 => 4,
        }
    }
}

impl From<ComponentType> for DataType {
    ghost use Rattle.gltf_handles.specs.Sizes.{data_type};

    ghost from_gives = { λ code meaning. meaning ≡ data_type code };

    fn from(code: ComponentType) -> DataType {
        match code {
            ComponentType::I8 => DataType::I8,
            ComponentType::U8 => DataType::U8,
            ComponentType::I16 => DataType::I16,
            ComponentType::U16 => DataType::U16,
            ComponentType::U32 => DataType::U32,
            ComponentType::F32 => DataType::F32,
        }
    }
}

/// The components of an item (glTF 2.0, section 3.6.2.2, "Accessor Data Types").
#[derive(Clone, Copy, Debug, PartialEq, Eq)]
pub enum Dimensions {
    /// One component.
    Scalar,
    /// Two.
    Vec2,
    /// Three.
    Vec3,
    /// Four.
    Vec4,
    /// Two columns of two.
    Mat2,
    /// Three columns of three.
    Mat3,
    /// Four columns of four.
    Mat4,
}

impl Dimensions {
    ghost use Rattle.gltf_handles.specs.Sizes.{multiplicity};

    /// How many components an item has.
    pub fn multiplicity(&self) -> usize
        ensures gives { result ≡ multiplicity self.now }
        ensures small { result ≤ 16 }
    {
        match self {
            Dimensions::Scalar => 1,
            Dimensions::Vec2 => 2,
            Dimensions::Vec3 => 3,
            Dimensions::Vec4 | Dimensions::Mat2 => 4,
            Dimensions::Mat3 => 9,
            Dimensions::Mat4 => 16,
        }
    }
}

impl From<Type> for Dimensions {
    ghost use Rattle.gltf_handles.specs.Sizes.{dimensions};

    ghost from_gives = { λ code meaning. meaning ≡ dimensions code };

    fn from(code: Type) -> Dimensions {
        match code {
            Type::Scalar => Dimensions::Scalar,
            Type::Vec2 => Dimensions::Vec2,
            Type::Vec3 => Dimensions::Vec3,
            Type::Vec4 => Dimensions::Vec4,
            Type::Mat2 => Dimensions::Mat2,
            Type::Mat3 => Dimensions::Mat3,
            Type::Mat4 => Dimensions::Mat4,
        }
    }
}

/// Typed items in the bytes of a view (glTF 2.0, section 5.1, "Accessor").
#[derive_where(Clone, Copy)]
#[derive_where(Debug; D)]
pub struct Accessor<'a, D: Records = Valid> {
    index: usize,
    inner: Inner<'a, accessor::Accessor, D>,
}

impl<'a, D: Records> Accessor<'a, D> {
    ghost use Rattle.gltf_handles.specs.Buffers.{IsView};
    ghost use Rattle.gltf_handles.specs.Sizes.{data_type, dimensions, item_size, Means};
    ghost use Rattle.gltf_handles.specs.Accessors.{accessor_handle, IsAccessor, IsSparse};

    /// The accessor at an index below the number of accessors.
    pub fn new(document: &'a D, index: usize) -> Self
        requires { index < length (D.root document.now).accessors.items }
        ensures { IsAccessor (D.root document.now) index result }
    {
        Accessor {
            index,
            inner: Inner {
                document,
                json: document.get::<kinds::Accessor>(index),
            },
        }
    }

    /// The position among the accessors of the document.
    pub fn index(&self) -> usize
        ensures { result ≡ (accessor_handle self.now).index }
    {
        self.index
    }

    /// The bytes of an item: those of a component, times the components. Columns of matrices are
    /// not padded. At most 64.
    pub fn size(&self) -> usize
        ensures gives { result ≡ item_size (accessor_handle self.now).json }
        ensures small { result ≤ 64 }
    {
        self.data_type().size() * self.dimensions().multiplicity()
    }

    /// The view that the items stand in. A sparse accessor may have none: then they are zeros.
    pub fn view(&self) -> Option<View<'a, D>>
        ensures { Follows (IsView (accessor_handle self.now).document)
            (accessor_handle self.now).json.buffer_view result }
    {
        let index = self.inner.json.buffer_view?;
        Some(View::new(self.inner.document, index.value()))
    }

    /// The distance in bytes from the start of the view to the first item: `byteOffset`, 0 where
    /// that is absent.
    pub fn offset(&self) -> usize
        ensures { result ≡ unwrap_or (accessor_handle self.now).json.byte_offset 0 }
    {
        self.inner.json.byte_offset.unwrap_or(0) as usize
    }

    /// The number of items. Of a sparse accessor without a view it may be up to 2^64 - 1, whatever
    /// the size of the file: ask before you make room for them.
    pub fn count(&self) -> usize
        ensures { result ≡ (accessor_handle self.now).json.count }
    {
        self.inner.json.count as usize
    }

    /// The type of each component: `componentType`.
    pub fn data_type(&self) -> DataType
        ensures { Means data_type (accessor_handle self.now).json.component_type result }
    {
        DataType::from(meaning(self.inner.json.component_type))
    }

    /// The components of an item: `type`.
    pub fn dimensions(&self) -> Dimensions
        ensures { Means dimensions (accessor_handle self.now).json.type_ result }
    {
        Dimensions::from(meaning(self.inner.json.type_))
    }

    /// The least value of each component, as it stands: `min`.
    pub fn min(&self) -> Option<&'a Value>
        ensures { option_copied result ≡ (accessor_handle self.now).json.min }
    {
        self.inner.json.min.as_ref()
    }

    /// The greatest value of each component, as it stands: `max`.
    pub fn max(&self) -> Option<&'a Value>
        ensures { option_copied result ≡ (accessor_handle self.now).json.max }
    {
        self.inner.json.max.as_ref()
    }

    /// The name given by the user.
    pub fn name(&self) -> Option<&'a str>
        ensures { option_copied result ≡ text (accessor_handle self.now).json.name }
    {
        self.inner.json.name.as_deref()
    }

    /// Whether whole numbers stand for fractions: `normalized`, false where that is absent.
    pub fn normalized(&self) -> bool
        ensures { result ≡ (accessor_handle self.now).json.normalized }
    {
        self.inner.json.normalized
    }

    /// The items that differ from those of the view.
    pub fn sparse(&self) -> Option<Sparse<'a, D>>
        ensures { Follows (IsSparse (accessor_handle self.now).document)
            (accessor_handle self.now).json.sparse result }
    {
        let json = lent(&self.inner.json.sparse)?;
        Some(Sparse::new(self.inner.document, json))
    }

    /// The extensions, none of which is known at an accessor; None where there is no member
    /// `extensions`.
    pub fn extensions(&self) -> Option<&'a Map<String, Value>>
        ensures { option_copied result ≡ unknown_extensions
            (accessor_handle self.now).json.extensions }
    {
        unknown_extensions(&self.inner.json.extensions)
    }

    /// The extension of this name.
    pub fn extension_value(&self, name: &str) -> Option<&'a Value>
        ensures { option_copied result
            ≡ extension_named name.now
            (unknown_extensions (accessor_handle self.now).json.extensions) }
    {
        self.extensions()?.get(name)
    }

    /// What the application stores here: `extras`.
    pub fn extras(&self) -> Option<&'a Value>
        ensures { option_copied result ≡ (accessor_handle self.now).json.extras }
    {
        lent(&self.inner.json.extras)
    }
}
