//! Readings of the types that the standard has for what is read, and of no other (glTF 2.0, section
//! 3.7.2.1, "Meshes: Overview"). The readers under the names of the Rust crate look at the bytes of
//! an item alone where they read floats: positions of unsigned integers come as floats of the same
//! bits there.

ghost use Rattle.std.specs.Prelude.{◌≡◌, None, MatchOption};
ghost use Rattle.gltf_handles.specs.Accessors.{accessor_handle};
ghost use Rattle.gltf_json_geometry.specs.declared.semantic.Semantic.TheVariants as attributes;
ghost use Rattle.gltf_read.specs.Indices.{AreIndices};
ghost use Rattle.gltf_read.specs.Kinds.{OfKind, floats, three_floats, indices};
ghost use Rattle.gltf_read.specs.Primitives.{attribute};
ghost use Rattle.gltf_read.specs.Reading.{IsRead, AreItems, ReadsMember, type_of};
ghost use Rattle.gltf_scene.specs.Meshes.{primitive_handle};

use crate::mesh::util::{ReadIndices, ReadPositions};
use crate::table;
use gltf_data::accessor::{Accessor, DataType, Dimensions, Iter};
use gltf_data::buffer::Buffer;
use gltf_items::{F32, Item};
use gltf_scene::mesh::{Primitive, Semantic};

/// Positions of vertices: `POSITION`, of three floats each. None where the primitive has no such
/// attribute, where its accessor has items of another type, or where that cannot be read. The
/// closure gives the bytes of buffers.
pub fn read_positions<'s, F: Fn(Buffer) -> Option<&'s [u8]>>(
    primitive: &Primitive,
    get_buffer_data: &F,
) -> Option<ReadPositions<'s>>
    requires { F.IsAlwaysCallable get_buffer_data.now }
    ensures { let p = primitive_handle primitive.now in
        ReadsMember (OfKind three_floats AreItems) (λ b o. F.post get_buffer_data.now b o)
        p.document (attribute p attributes.Positions) result }
{
    vectors(primitive.get(&Semantic::Positions)?, get_buffer_data)
}

/// Indices of vertices: `indices`, one number each, of unsigned integers. None as of
/// [`read_positions`].
pub fn read_indices<'s, F: Fn(Buffer) -> Option<&'s [u8]>>(
    primitive: &Primitive,
    get_buffer_data: &F,
) -> Option<ReadIndices<'s>>
    requires { F.IsAlwaysCallable get_buffer_data.now }
    ensures { let p = primitive_handle primitive.now in
        ReadsMember (OfKind indices AreIndices) (λ b o. F.post get_buffer_data.now b o)
        p.document p.json.indices result }
{
    scalars(primitive.indices()?, get_buffer_data)
}

/// Items of three floats.
fn vectors<'s, F: Fn(Buffer) -> Option<&'s [u8]>>(
    accessor: Accessor,
    get_buffer_data: &F,
) -> Option<Iter<'s, [F32; 3]>>
    requires { F.IsAlwaysCallable get_buffer_data.now }
    ensures { let a = accessor_handle accessor.entry in
        OfKind three_floats AreItems (IsRead (λ b o. F.post get_buffer_data.now b o) a.document
        a.json) a.json result }
{
    match accessor.dimensions() {
        Dimensions::Vec3 => floats(accessor, get_buffer_data),
        _ => None,
    }
}

/// Items of floats, of which the caller has asked how many.
fn floats<'s, T: Item, F: Fn(Buffer) -> Option<&'s [u8]>>(
    accessor: Accessor,
    get_buffer_data: &F,
) -> Option<Iter<'s, T>>
    requires { F.IsAlwaysCallable get_buffer_data.now }
    ensures { let a = accessor_handle accessor.entry in
        MatchOption (floats T.size (type_of a.json)) (result ≡ None) (λ size. AreItems
        (IsRead (λ b o. F.post get_buffer_data.now b o) a.document a.json) a.json result) }
{
    match accessor.data_type() {
        DataType::F32 => table::items(accessor, get_buffer_data),
        _ => None,
    }
}

/// Indices of one number each.
#[tactic(auto, using(crate::proofs::Tables::indices_of_kind))]
fn scalars<'s, F: Fn(Buffer) -> Option<&'s [u8]>>(
    accessor: Accessor,
    get_buffer_data: &F,
) -> Option<ReadIndices<'s>>
    requires { F.IsAlwaysCallable get_buffer_data.now }
    ensures { let a = accessor_handle accessor.entry in
        OfKind indices AreIndices (IsRead (λ b o. F.post get_buffer_data.now b o) a.document
        a.json) a.json result }
{
    match accessor.dimensions() {
        Dimensions::Scalar => table::indices(accessor, get_buffer_data),
        _ => None,
    }
}
