//! An accessor, read as the items of one of several types, by the type of its components and its
//! dimensions.

ghost use Rattle.std.specs.Prelude.{Some};
ghost use Rattle.gltf_handles.specs.Accessors.{accessor_handle};
ghost use Rattle.gltf_read.specs.Colors.{AreRgb, AreRgba, AreColors};
ghost use Rattle.gltf_read.specs.Indices.{AreIndices};
ghost use Rattle.gltf_read.specs.Joints.{AreJoints};
ghost use Rattle.gltf_read.specs.MorphTargetWeights.{AreMorphTargetWeights};
ghost use Rattle.gltf_read.specs.Outputs.{AreOutputs};
ghost use Rattle.gltf_read.specs.Reading.{IsRead, AreItems, type_of};
ghost use Rattle.gltf_read.specs.Rotations.{AreRotations};
ghost use Rattle.gltf_read.specs.TexCoords.{AreTexCoords};
ghost use Rattle.gltf_read.specs.Weights.{AreWeights};

use gltf_casting::animation::util::{MorphTargetWeights, ReadOutputs, Rotations};
use gltf_casting::mesh::util::{ReadColors, ReadIndices, ReadJoints, ReadTexCoords, ReadWeights};
use gltf_data::accessor::{Accessor, DataType, Dimensions, Iter};
use gltf_data::buffer::Buffer;
use gltf_items::Item;
use gltf_json::animation::Property;

/// Items of one type, whatever the type of components and the dimensions.
pub(crate) fn items<'s, T: Item, F: Fn(Buffer) -> Option<&'s [u8]>>(
    accessor: Accessor,
    get_buffer_data: &F,
) -> Option<Iter<'s, T>>
    requires { F.IsAlwaysCallable get_buffer_data.now }
    ensures { let a = accessor_handle accessor.entry in
        AreItems (IsRead (λ b o. F.post get_buffer_data.now b o) a.document a.json) a.json result }
{
    Iter::new(accessor, get_buffer_data)
}

/// Indices.
pub(crate) fn indices<'s, F: Fn(Buffer) -> Option<&'s [u8]>>(
    accessor: Accessor,
    get_buffer_data: &F,
) -> Option<ReadIndices<'s>>
    requires { F.IsAlwaysCallable get_buffer_data.now }
    ensures { let a = accessor_handle accessor.entry in
        AreIndices (IsRead (λ b o. F.post get_buffer_data.now b o) a.document a.json)
        a.json result }
{
    match accessor.data_type() {
        DataType::U8 => Some(ReadIndices::U8(items(accessor, get_buffer_data)?)),
        DataType::U16 => Some(ReadIndices::U16(items(accessor, get_buffer_data)?)),
        DataType::U32 => Some(ReadIndices::U32(items(accessor, get_buffer_data)?)),
        _ => None,
    }
}

/// Joints.
pub(crate) fn joints<'s, F: Fn(Buffer) -> Option<&'s [u8]>>(
    accessor: Accessor,
    get_buffer_data: &F,
) -> Option<ReadJoints<'s>>
    requires { F.IsAlwaysCallable get_buffer_data.now }
    ensures { let a = accessor_handle accessor.entry in
        AreJoints (IsRead (λ b o. F.post get_buffer_data.now b o) a.document a.json)
        a.json result }
{
    match accessor.data_type() {
        DataType::U8 => Some(ReadJoints::U8(items(accessor, get_buffer_data)?)),
        DataType::U16 => Some(ReadJoints::U16(items(accessor, get_buffer_data)?)),
        _ => None,
    }
}

/// Texture coordinates.
pub(crate) fn tex_coords<'s, F: Fn(Buffer) -> Option<&'s [u8]>>(
    accessor: Accessor,
    get_buffer_data: &F,
) -> Option<ReadTexCoords<'s>>
    requires { F.IsAlwaysCallable get_buffer_data.now }
    ensures { let a = accessor_handle accessor.entry in
        AreTexCoords (IsRead (λ b o. F.post get_buffer_data.now b o) a.document a.json)
        a.json result }
{
    match accessor.data_type() {
        DataType::U8 => Some(ReadTexCoords::U8(items(accessor, get_buffer_data)?)),
        DataType::U16 => Some(ReadTexCoords::U16(items(accessor, get_buffer_data)?)),
        DataType::F32 => Some(ReadTexCoords::F32(items(accessor, get_buffer_data)?)),
        _ => None,
    }
}

/// Weights of joints.
pub(crate) fn weights<'s, F: Fn(Buffer) -> Option<&'s [u8]>>(
    accessor: Accessor,
    get_buffer_data: &F,
) -> Option<ReadWeights<'s>>
    requires { F.IsAlwaysCallable get_buffer_data.now }
    ensures { let a = accessor_handle accessor.entry in
        AreWeights (IsRead (λ b o. F.post get_buffer_data.now b o) a.document a.json)
        a.json result }
{
    match accessor.data_type() {
        DataType::U8 => Some(ReadWeights::U8(items(accessor, get_buffer_data)?)),
        DataType::U16 => Some(ReadWeights::U16(items(accessor, get_buffer_data)?)),
        DataType::F32 => Some(ReadWeights::F32(items(accessor, get_buffer_data)?)),
        _ => None,
    }
}

/// Rotations.
pub(crate) fn rotations<'s, F: Fn(Buffer) -> Option<&'s [u8]>>(
    accessor: Accessor,
    get_buffer_data: &F,
) -> Option<Rotations<'s>>
    requires { F.IsAlwaysCallable get_buffer_data.now }
    ensures { let a = accessor_handle accessor.entry in
        AreRotations (IsRead (λ b o. F.post get_buffer_data.now b o) a.document a.json)
        a.json result }
{
    match accessor.data_type() {
        DataType::I8 => Some(Rotations::I8(items(accessor, get_buffer_data)?)),
        DataType::U8 => Some(Rotations::U8(items(accessor, get_buffer_data)?)),
        DataType::I16 => Some(Rotations::I16(items(accessor, get_buffer_data)?)),
        DataType::U16 => Some(Rotations::U16(items(accessor, get_buffer_data)?)),
        DataType::F32 => Some(Rotations::F32(items(accessor, get_buffer_data)?)),
        _ => None,
    }
}

/// Weights of morph targets.
pub(crate) fn morph_target_weights<'s, F: Fn(Buffer) -> Option<&'s [u8]>>(
    accessor: Accessor,
    get_buffer_data: &F,
) -> Option<MorphTargetWeights<'s>>
    requires { F.IsAlwaysCallable get_buffer_data.now }
    ensures { let a = accessor_handle accessor.entry in
        AreMorphTargetWeights (IsRead (λ b o. F.post get_buffer_data.now b o) a.document a.json)
        a.json result }
{
    match accessor.data_type() {
        DataType::I8 => Some(MorphTargetWeights::I8(items(accessor, get_buffer_data)?)),
        DataType::U8 => Some(MorphTargetWeights::U8(items(accessor, get_buffer_data)?)),
        DataType::I16 => Some(MorphTargetWeights::I16(items(accessor, get_buffer_data)?)),
        DataType::U16 => Some(MorphTargetWeights::U16(items(accessor, get_buffer_data)?)),
        DataType::F32 => Some(MorphTargetWeights::F32(items(accessor, get_buffer_data)?)),
        _ => None,
    }
}

/// Colours of three components.
pub(crate) fn rgb<'s, F: Fn(Buffer) -> Option<&'s [u8]>>(
    accessor: Accessor,
    get_buffer_data: &F,
) -> Option<ReadColors<'s>>
    requires { F.IsAlwaysCallable get_buffer_data.now }
    ensures { let a = accessor_handle accessor.entry in
        AreRgb (IsRead (λ b o. F.post get_buffer_data.now b o) a.document a.json)
        (type_of a.json) result }
{
    match accessor.data_type() {
        DataType::U8 => Some(ReadColors::RgbU8(items(accessor, get_buffer_data)?)),
        DataType::U16 => Some(ReadColors::RgbU16(items(accessor, get_buffer_data)?)),
        DataType::F32 => Some(ReadColors::RgbF32(items(accessor, get_buffer_data)?)),
        _ => None,
    }
}

/// Colours of four components.
pub(crate) fn rgba<'s, F: Fn(Buffer) -> Option<&'s [u8]>>(
    accessor: Accessor,
    get_buffer_data: &F,
) -> Option<ReadColors<'s>>
    requires { F.IsAlwaysCallable get_buffer_data.now }
    ensures { let a = accessor_handle accessor.entry in
        AreRgba (IsRead (λ b o. F.post get_buffer_data.now b o) a.document a.json)
        (type_of a.json) result }
{
    match accessor.data_type() {
        DataType::U8 => Some(ReadColors::RgbaU8(items(accessor, get_buffer_data)?)),
        DataType::U16 => Some(ReadColors::RgbaU16(items(accessor, get_buffer_data)?)),
        DataType::F32 => Some(ReadColors::RgbaF32(items(accessor, get_buffer_data)?)),
        _ => None,
    }
}

/// Colours.
pub(crate) fn colors<'s, F: Fn(Buffer) -> Option<&'s [u8]>>(
    accessor: Accessor,
    get_buffer_data: &F,
) -> Option<ReadColors<'s>>
    requires { F.IsAlwaysCallable get_buffer_data.now }
    ensures { let a = accessor_handle accessor.entry in
        AreColors (IsRead (λ b o. F.post get_buffer_data.now b o) a.document a.json)
        a.json result }
{
    match accessor.dimensions() {
        Dimensions::Vec3 => rgb(accessor, get_buffer_data),
        Dimensions::Vec4 => rgba(accessor, get_buffer_data),
        _ => None,
    }
}

/// What keyframes hold, by what is animated.
pub(crate) fn outputs<'s, F: Fn(Buffer) -> Option<&'s [u8]>>(
    property: Property,
    accessor: Accessor,
    get_buffer_data: &F,
) -> Option<ReadOutputs<'s>>
    requires { F.IsAlwaysCallable get_buffer_data.now }
    ensures { let a = accessor_handle accessor.entry in
        AreOutputs (Some property)
        (IsRead (λ b o. F.post get_buffer_data.now b o) a.document a.json) a.json result }
{
    match property {
        Property::Translation => {
            Some(ReadOutputs::Translations(items(accessor, get_buffer_data)?))
        }
        Property::Rotation => Some(ReadOutputs::Rotations(rotations(accessor, get_buffer_data)?)),
        Property::Scale => Some(ReadOutputs::Scales(items(accessor, get_buffer_data)?)),
        Property::MorphTargetWeights => Some(ReadOutputs::MorphTargetWeights(morph_target_weights(
            accessor,
            get_buffer_data,
        )?)),
    }
}
