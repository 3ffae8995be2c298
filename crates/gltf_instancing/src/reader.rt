//! Readers of the attributes of instances.
ghost use Rattle.std.specs.Prelude.{◌≡◌};
ghost use Rattle.gltf_handles.specs.Accessors.{accessor_handle};
ghost use Rattle.gltf_read.specs.Reading.{IsRead, ReadsMember, AreItems};
ghost use Rattle.gltf_extensions.specs.Handles.{handle_of};
ghost use Rattle.gltf_instancing.specs.Instances.{are_vectors, rotation_type, AreVectors};
ghost use Rattle.gltf_instancing.specs.Instances.{AreRotations};

use crate::rotations::Rotations;
use gltf_data::accessor::{Accessor, DataType, Dimensions, Iter};
use gltf_data::buffer::Buffer;
use gltf_extension_records::node::MeshGpuInstancing;
use gltf_extensions::Handle;
use gltf_items::{F32, Item};

/// The translations of instances: `TRANSLATION`. None where there are none, where these are not
/// three floats each, which the extension asks for, or where the accessor cannot be read. The
/// closure gives the bytes of buffers.
pub fn read_translations<'s, F: Fn(Buffer) -> Option<&'s [u8]>>(
    instancing: &Handle<'_, MeshGpuInstancing>,
    get_buffer_data: &F,
) -> Option<Iter<'s, [F32; 3]>>
    requires { F.IsAlwaysCallable get_buffer_data.now }
    ensures { let h = handle_of instancing.now in
        ReadsMember AreVectors (λ b o. F.post get_buffer_data.now b o) h.document
        h.json.attributes.translation result }
{
    let accessor = instancing.translation()?;
    vectors(accessor, get_buffer_data)
}

/// The scales of instances: `SCALE`. None as of [`read_translations`].
pub fn read_scales<'s, F: Fn(Buffer) -> Option<&'s [u8]>>(
    instancing: &Handle<'_, MeshGpuInstancing>,
    get_buffer_data: &F,
) -> Option<Iter<'s, [F32; 3]>>
    requires { F.IsAlwaysCallable get_buffer_data.now }
    ensures { let h = handle_of instancing.now in
        ReadsMember AreVectors (λ b o. F.post get_buffer_data.now b o) h.document
        h.json.attributes.scale result }
{
    let accessor = instancing.scale()?;
    vectors(accessor, get_buffer_data)
}

/// The rotations of instances: `ROTATION`. None where there are none, where these are not four
/// floats or normalized signed integers of one or two bytes each, which the extension asks for, or
/// where the accessor cannot be read.
pub fn read_rotations<'s, F: Fn(Buffer) -> Option<&'s [u8]>>(
    instancing: &Handle<'_, MeshGpuInstancing>,
    get_buffer_data: &F,
) -> Option<Rotations<'s>>
    requires { F.IsAlwaysCallable get_buffer_data.now }
    ensures { let h = handle_of instancing.now in
        ReadsMember AreRotations (λ b o. F.post get_buffer_data.now b o) h.document
        h.json.attributes.rotation result }
{
    let accessor = instancing.rotation()?;
    rotations(accessor, get_buffer_data)
}

/// Three floats each.
fn vectors<'s, F: Fn(Buffer) -> Option<&'s [u8]>>(
    accessor: Accessor,
    get_buffer_data: &F,
) -> Option<Iter<'s, [F32; 3]>>
    requires { F.IsAlwaysCallable get_buffer_data.now }
    ensures { let a = accessor_handle accessor.entry in
        AreVectors (IsRead (λ b o. F.post get_buffer_data.now b o) a.document a.json)
        a.json result }
{
    if are_vectors(&accessor) {
        items(accessor, get_buffer_data)
    } else {
        None
    }
}

/// Whether the items of an accessor are three floats.
fn are_vectors(accessor: &Accessor) -> bool
    ensures { result ≡ are_vectors (accessor_handle accessor.now).json }
{
    matches!(
        (accessor.dimensions(), accessor.data_type()),
        (Dimensions::Vec3, DataType::F32)
    )
}

/// Rotations, by the type of their components.
fn rotations<'s, F: Fn(Buffer) -> Option<&'s [u8]>>(
    accessor: Accessor,
    get_buffer_data: &F,
) -> Option<Rotations<'s>>
    requires { F.IsAlwaysCallable get_buffer_data.now }
    ensures { let a = accessor_handle accessor.entry in
        AreRotations (IsRead (λ b o. F.post get_buffer_data.now b o) a.document a.json)
        a.json result }
{
    match rotation_type(&accessor)? {
        DataType::I8 => Some(Rotations::I8(items(accessor, get_buffer_data)?)),
        DataType::I16 => Some(Rotations::I16(items(accessor, get_buffer_data)?)),
        DataType::F32 => Some(Rotations::F32(items(accessor, get_buffer_data)?)),
        _ => None,
    }
}

/// The type of the components of rotations, where it is one that the extension has.
fn rotation_type(accessor: &Accessor) -> Option<DataType>
    ensures { result ≡ rotation_type (accessor_handle accessor.now).json }
{
    match (
        accessor.dimensions(),
        accessor.data_type(),
        accessor.normalized(),
    ) {
        (Dimensions::Vec4, DataType::I8, true) => Some(DataType::I8),
        (Dimensions::Vec4, DataType::I16, true) => Some(DataType::I16),
        (Dimensions::Vec4, DataType::F32, _) => Some(DataType::F32),
        _ => None,
    }
}

/// Items of one type.
fn items<'s, T: Item, F: Fn(Buffer) -> Option<&'s [u8]>>(
    accessor: Accessor,
    get_buffer_data: &F,
) -> Option<Iter<'s, T>>
    requires { F.IsAlwaysCallable get_buffer_data.now }
    ensures { let a = accessor_handle accessor.entry in
        AreItems (IsRead (λ b o. F.post get_buffer_data.now b o) a.document a.json) a.json result }
{
    Iter::new(accessor, get_buffer_data)
}
