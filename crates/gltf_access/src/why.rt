//! Why an accessor was not read as the items that the standard has for what is read: by the
//! dimensions and the type of components, as the tables of `gltf_read` have them.

ghost use Rattle.std.specs.Prelude.{◌≡◌, Some};
ghost use Rattle.gltf_handles.specs.Accessors.{accessor_handle};
ghost use Rattle.gltf_read.specs.Kinds.{kind_of, floats, index_components, joint_components};
ghost use Rattle.gltf_read.specs.Kinds.{fractions, signed, three_floats, four_floats, times};
ghost use Rattle.gltf_read.specs.Kinds.{matrices, indices, colors, tex_coords, joints, weights};
ghost use Rattle.gltf_read.specs.Kinds.{rotations, target_weights, outputs, attribute_kinds};
ghost use Rattle.gltf_read.specs.Reading.{type_of};
ghost use Rattle.gltf_access.specs.Why.{IsTried, IsOfType, IsWhy, IsWhyKind, reason_of};

use crate::not_read::NotRead;
use gltf_data::accessor::{Accessor, DataType, Dimensions, Iter, Unreadable};
use gltf_data::buffer::Buffer;
use gltf_items::{F32, Item};
use gltf_json::animation::Property;
use gltf_json::mesh::Semantic;

/// Items of one type, whatever the type of components and the dimensions.
fn items<'s, T: Item, F: Fn(Buffer) -> Option<&'s [u8]>>(
    accessor: Accessor,
    get_buffer_data: &F,
) -> Option<NotRead>
    requires { F.IsAlwaysCallable get_buffer_data.now }
    ensures { let a = accessor_handle accessor.entry in
        IsTried (λ b o. F.post get_buffer_data.now b o) T.size a.document a.json result }
{
    reason(&Iter::<T>::try_new(accessor, get_buffer_data))
}

/// Why items are not there.
fn reason<T: Item>(tried: &Result<Iter<'_, T>, Unreadable>) -> Option<NotRead>
    ensures { result ≡ reason_of tried.now }
{
    match tried {
        Ok(_) => None,
        Err(reason) => Some(NotRead::Unreadable(*reason)),
    }
}

/// Items of a type that the standard does not have for what is read.
fn of_type(accessor: Accessor) -> Option<NotRead>
    ensures { IsOfType (accessor_handle accessor.entry).json result }
{
    Some(NotRead::Type {
        component: accessor.data_type(),
        dimensions: accessor.dimensions(),
    })
}

// ---- By the type of components.

/// Floats.
fn floats<'s, T: Item, F: Fn(Buffer) -> Option<&'s [u8]>>(
    accessor: Accessor,
    get_buffer_data: &F,
) -> Option<NotRead>
    requires { F.IsAlwaysCallable get_buffer_data.now }
    ensures { let a = accessor_handle accessor.entry in
        IsWhy (λ b o. F.post get_buffer_data.now b o) a.document a.json
        (floats T.size (type_of a.json)) result }
{
    match accessor.data_type() {
        DataType::F32 => items::<T, F>(accessor, get_buffer_data),
        _ => of_type(accessor),
    }
}

/// Indices of vertices.
fn index_components<'s, F: Fn(Buffer) -> Option<&'s [u8]>>(
    accessor: Accessor,
    get_buffer_data: &F,
) -> Option<NotRead>
    requires { F.IsAlwaysCallable get_buffer_data.now }
    ensures { let a = accessor_handle accessor.entry in
        IsWhy (λ b o. F.post get_buffer_data.now b o) a.document a.json
        (index_components (type_of a.json)) result }
{
    match accessor.data_type() {
        DataType::U8 => items::<u8, F>(accessor, get_buffer_data),
        DataType::U16 => items::<u16, F>(accessor, get_buffer_data),
        DataType::U32 => items::<u32, F>(accessor, get_buffer_data),
        _ => of_type(accessor),
    }
}

/// Four joints.
fn joint_components<'s, F: Fn(Buffer) -> Option<&'s [u8]>>(
    accessor: Accessor,
    get_buffer_data: &F,
) -> Option<NotRead>
    requires { F.IsAlwaysCallable get_buffer_data.now }
    ensures { let a = accessor_handle accessor.entry in
        IsWhy (λ b o. F.post get_buffer_data.now b o) a.document a.json
        (joint_components (type_of a.json)) result }
{
    match accessor.data_type() {
        DataType::U8 => items::<[u8; 4], F>(accessor, get_buffer_data),
        DataType::U16 => items::<[u16; 4], F>(accessor, get_buffer_data),
        _ => of_type(accessor),
    }
}

/// Floats, and fractions without a sign: a type of items for each type of components.
fn fractions<'s, U8: Item, U16: Item, Float: Item, F: Fn(Buffer) -> Option<&'s [u8]>>(
    accessor: Accessor,
    get_buffer_data: &F,
) -> Option<NotRead>
    requires { F.IsAlwaysCallable get_buffer_data.now }
    ensures { let a = accessor_handle accessor.entry in
        IsWhy (λ b o. F.post get_buffer_data.now b o) a.document a.json
        (fractions U8.size U16.size Float.size (type_of a.json)) result }
{
    match accessor.data_type() {
        DataType::U8 => items::<U8, F>(accessor, get_buffer_data),
        DataType::U16 => items::<U16, F>(accessor, get_buffer_data),
        DataType::F32 => items::<Float, F>(accessor, get_buffer_data),
        _ => of_type(accessor),
    }
}

/// The same, and fractions with a sign.
fn signed<
    's,
    I8: Item,
    U8: Item,
    I16: Item,
    U16: Item,
    Float: Item,
    F: Fn(Buffer) -> Option<&'s [u8]>,
>(accessor: Accessor, get_buffer_data: &F) -> Option<NotRead>
    requires { F.IsAlwaysCallable get_buffer_data.now }
    ensures { let a = accessor_handle accessor.entry in
        IsWhy (λ b o. F.post get_buffer_data.now b o) a.document a.json
        (signed I8.size U8.size I16.size U16.size Float.size (type_of a.json)) result }
{
    match accessor.data_type() {
        DataType::I8 => items::<I8, F>(accessor, get_buffer_data),
        DataType::U8 => items::<U8, F>(accessor, get_buffer_data),
        DataType::I16 => items::<I16, F>(accessor, get_buffer_data),
        DataType::U16 => items::<U16, F>(accessor, get_buffer_data),
        DataType::F32 => items::<Float, F>(accessor, get_buffer_data),
        _ => of_type(accessor),
    }
}

// ---- By the dimensions.

/// Three floats: positions, normals, displacements, translations and scales.
pub(crate) fn three_floats<'s, F: Fn(Buffer) -> Option<&'s [u8]>>(
    accessor: Accessor,
    get_buffer_data: &F,
) -> Option<NotRead>
    requires { F.IsAlwaysCallable get_buffer_data.now }
    ensures { let a = accessor_handle accessor.entry in
        IsWhy (λ b o. F.post get_buffer_data.now b o) a.document a.json
        (kind_of three_floats a.json) result }
{
    match accessor.dimensions() {
        Dimensions::Vec3 => floats::<[F32; 3], F>(accessor, get_buffer_data),
        _ => of_type(accessor),
    }
}

/// Four floats: tangents.
fn four_floats<'s, F: Fn(Buffer) -> Option<&'s [u8]>>(
    accessor: Accessor,
    get_buffer_data: &F,
) -> Option<NotRead>
    requires { F.IsAlwaysCallable get_buffer_data.now }
    ensures { let a = accessor_handle accessor.entry in
        IsWhy (λ b o. F.post get_buffer_data.now b o) a.document a.json
        (kind_of four_floats a.json) result }
{
    match accessor.dimensions() {
        Dimensions::Vec4 => floats::<[F32; 4], F>(accessor, get_buffer_data),
        _ => of_type(accessor),
    }
}

/// Times of keyframes.
pub(crate) fn times<'s, F: Fn(Buffer) -> Option<&'s [u8]>>(
    accessor: Accessor,
    get_buffer_data: &F,
) -> Option<NotRead>
    requires { F.IsAlwaysCallable get_buffer_data.now }
    ensures { let a = accessor_handle accessor.entry in
        IsWhy (λ b o. F.post get_buffer_data.now b o) a.document a.json
        (kind_of times a.json) result }
{
    match accessor.dimensions() {
        Dimensions::Scalar => floats::<F32, F>(accessor, get_buffer_data),
        _ => of_type(accessor),
    }
}

/// Matrices of skins.
pub(crate) fn matrices<'s, F: Fn(Buffer) -> Option<&'s [u8]>>(
    accessor: Accessor,
    get_buffer_data: &F,
) -> Option<NotRead>
    requires { F.IsAlwaysCallable get_buffer_data.now }
    ensures { let a = accessor_handle accessor.entry in
        IsWhy (λ b o. F.post get_buffer_data.now b o) a.document a.json
        (kind_of matrices a.json) result }
{
    match accessor.dimensions() {
        Dimensions::Mat4 => floats::<[[F32; 4]; 4], F>(accessor, get_buffer_data),
        _ => of_type(accessor),
    }
}

/// Indices of vertices.
pub(crate) fn indices<'s, F: Fn(Buffer) -> Option<&'s [u8]>>(
    accessor: Accessor,
    get_buffer_data: &F,
) -> Option<NotRead>
    requires { F.IsAlwaysCallable get_buffer_data.now }
    ensures { let a = accessor_handle accessor.entry in
        IsWhy (λ b o. F.post get_buffer_data.now b o) a.document a.json
        (kind_of indices a.json) result }
{
    match accessor.dimensions() {
        Dimensions::Scalar => index_components(accessor, get_buffer_data),
        _ => of_type(accessor),
    }
}

/// Colours.
fn colors<'s, F: Fn(Buffer) -> Option<&'s [u8]>>(
    accessor: Accessor,
    get_buffer_data: &F,
) -> Option<NotRead>
    requires { F.IsAlwaysCallable get_buffer_data.now }
    ensures { let a = accessor_handle accessor.entry in
        IsWhy (λ b o. F.post get_buffer_data.now b o) a.document a.json
        (kind_of colors a.json) result }
{
    match accessor.dimensions() {
        Dimensions::Vec3 => {
            fractions::<[u8; 3], [u16; 3], [F32; 3], F>(accessor, get_buffer_data)
        }
        Dimensions::Vec4 => {
            fractions::<[u8; 4], [u16; 4], [F32; 4], F>(accessor, get_buffer_data)
        }
        _ => of_type(accessor),
    }
}

/// Texture coordinates.
fn tex_coords<'s, F: Fn(Buffer) -> Option<&'s [u8]>>(
    accessor: Accessor,
    get_buffer_data: &F,
) -> Option<NotRead>
    requires { F.IsAlwaysCallable get_buffer_data.now }
    ensures { let a = accessor_handle accessor.entry in
        IsWhy (λ b o. F.post get_buffer_data.now b o) a.document a.json
        (kind_of tex_coords a.json) result }
{
    match accessor.dimensions() {
        Dimensions::Vec2 => {
            fractions::<[u8; 2], [u16; 2], [F32; 2], F>(accessor, get_buffer_data)
        }
        _ => of_type(accessor),
    }
}

/// Joints.
fn joints<'s, F: Fn(Buffer) -> Option<&'s [u8]>>(
    accessor: Accessor,
    get_buffer_data: &F,
) -> Option<NotRead>
    requires { F.IsAlwaysCallable get_buffer_data.now }
    ensures { let a = accessor_handle accessor.entry in
        IsWhy (λ b o. F.post get_buffer_data.now b o) a.document a.json
        (kind_of joints a.json) result }
{
    match accessor.dimensions() {
        Dimensions::Vec4 => joint_components(accessor, get_buffer_data),
        _ => of_type(accessor),
    }
}

/// Weights of joints.
fn weights<'s, F: Fn(Buffer) -> Option<&'s [u8]>>(
    accessor: Accessor,
    get_buffer_data: &F,
) -> Option<NotRead>
    requires { F.IsAlwaysCallable get_buffer_data.now }
    ensures { let a = accessor_handle accessor.entry in
        IsWhy (λ b o. F.post get_buffer_data.now b o) a.document a.json
        (kind_of weights a.json) result }
{
    match accessor.dimensions() {
        Dimensions::Vec4 => {
            fractions::<[u8; 4], [u16; 4], [F32; 4], F>(accessor, get_buffer_data)
        }
        _ => of_type(accessor),
    }
}

/// Rotations.
fn rotations<'s, F: Fn(Buffer) -> Option<&'s [u8]>>(
    accessor: Accessor,
    get_buffer_data: &F,
) -> Option<NotRead>
    requires { F.IsAlwaysCallable get_buffer_data.now }
    ensures { let a = accessor_handle accessor.entry in
        IsWhy (λ b o. F.post get_buffer_data.now b o) a.document a.json
        (kind_of rotations a.json) result }
{
    match accessor.dimensions() {
        Dimensions::Vec4 => signed::<[i8; 4], [u8; 4], [i16; 4], [u16; 4], [F32; 4], F>(
            accessor,
            get_buffer_data,
        ),
        _ => of_type(accessor),
    }
}

/// Weights of morph targets.
fn target_weights<'s, F: Fn(Buffer) -> Option<&'s [u8]>>(
    accessor: Accessor,
    get_buffer_data: &F,
) -> Option<NotRead>
    requires { F.IsAlwaysCallable get_buffer_data.now }
    ensures { let a = accessor_handle accessor.entry in
        IsWhy (λ b o. F.post get_buffer_data.now b o) a.document a.json
        (kind_of target_weights a.json) result }
{
    match accessor.dimensions() {
        Dimensions::Scalar => signed::<i8, u8, i16, u16, F32, F>(accessor, get_buffer_data),
        _ => of_type(accessor),
    }
}

// ---- By what is read.

/// What keyframes hold, by what is animated.
pub(crate) fn outputs<'s, F: Fn(Buffer) -> Option<&'s [u8]>>(
    property: Property,
    accessor: Accessor,
    get_buffer_data: &F,
) -> Option<NotRead>
    requires { F.IsAlwaysCallable get_buffer_data.now }
    ensures { let a = accessor_handle accessor.entry in
        IsWhy (λ b o. F.post get_buffer_data.now b o) a.document a.json
        (kind_of (outputs (Some property)) a.json) result }
{
    match property {
        Property::Translation => three_floats(accessor, get_buffer_data),
        Property::Scale => three_floats(accessor, get_buffer_data),
        Property::Rotation => rotations(accessor, get_buffer_data),
        Property::MorphTargetWeights => target_weights(accessor, get_buffer_data),
    }
}

/// What an attribute holds, by its meaning.
pub(crate) fn attribute<'s, F: Fn(Buffer) -> Option<&'s [u8]>>(
    accessor: Accessor,
    semantic: &Semantic,
    get_buffer_data: &F,
) -> Option<NotRead>
    requires { F.IsAlwaysCallable get_buffer_data.now }
    ensures { let a = accessor_handle accessor.entry in
        IsWhyKind (attribute_kinds semantic.now) (λ b o. F.post get_buffer_data.now b o)
        a.document a.json result }
{
    match semantic {
        Semantic::Extras(_) => Some(NotRead::NoReader),
        Semantic::Positions => three_floats(accessor, get_buffer_data),
        Semantic::Normals => three_floats(accessor, get_buffer_data),
        Semantic::Tangents => four_floats(accessor, get_buffer_data),
        Semantic::Colors(_) => colors(accessor, get_buffer_data),
        Semantic::TexCoords(_) => tex_coords(accessor, get_buffer_data),
        Semantic::Joints(_) => joints(accessor, get_buffer_data),
        Semantic::Weights(_) => weights(accessor, get_buffer_data),
    }
}
