//! Why the reader of a primitive (`gltf_read::mesh::Reader`) read nothing (glTF 2.0, section 3.7.2,
//! "Meshes").

ghost use Rattle.std.specs.Prelude.{ℕ, Option};
ghost use Rattle.gltf_json.specs.declared.root.Root.{Root};
ghost use Rattle.gltf_handles.specs.Accessors.{IsAccessor};
ghost use Rattle.gltf_handles.specs.Members.{Follows};
ghost use Rattle.gltf_read.specs.Indices.{AreIndices};
ghost use Rattle.gltf_read.specs.Kinds.{OfKind, indices, three_floats, attribute_kinds};
ghost use Rattle.gltf_read.specs.Primitives.{attribute};
ghost use Rattle.gltf_scene.specs.Meshes.{primitive_handle, morph_target_handle};
ghost use Rattle.gltf_access.specs.Why.{IsWhyMember, IsWhyAttribute, Explains, ExplainsAttribute};
ghost use Rattle.gltf_access.specs.Why.{displacement, IsWhyDisplacement, ExplainsDisplacement};

use crate::not_read::NotRead;
use crate::why;
use gltf_data::accessor::Accessor;
use gltf_data::buffer::Buffer;
use gltf_items::F32;
use gltf_scene::mesh::{MorphTarget, Primitive, Semantic};

/// Why nothing is read of an attribute as what the standard has for it (section 3.7.2.1, "Meshes:
/// Overview"): None exactly where its items are of such a type and the reader's call for it
/// (`read_positions` for `POSITION`, `read_colors(n)` for `COLOR_n`, and so on) gives them. The
/// reader's calls look at the type of components where the table has several, at the dimensions of
/// colours, and else at the bytes of an item alone, so that they may give items of another type
/// too. The closure gives the bytes of buffers.
pub fn why_not_read<'s, F: Fn(Buffer) -> Option<&'s [u8]>>(
    primitive: &Primitive,
    semantic: &Semantic,
    get_buffer_data: &F,
) -> Option<NotRead>
    requires { F.IsAlwaysCallable get_buffer_data.now }
    ensures why { let p = primitive_handle primitive.now in
        IsWhyAttribute (attribute_kinds semantic.now) (λ b o. F.post get_buffer_data.now b o)
        p.document (attribute p semantic.now) result }
    ensures exact { let p = primitive_handle primitive.now in
        ExplainsAttribute ⟦<[F32; 3] as gltf_items::Item>⟧ ⟦<[F32; 4] as gltf_items::Item>⟧
        semantic.now (λ b o. F.post get_buffer_data.now b o) p.document
        (attribute p semantic.now) result }
{
    attribute_reason(primitive, semantic, get_buffer_data)
}

/// The same, by the types that the standard has.
fn attribute_reason<'s, F: Fn(Buffer) -> Option<&'s [u8]>>(
    primitive: &Primitive,
    semantic: &Semantic,
    get_buffer_data: &F,
) -> Option<NotRead>
    requires { F.IsAlwaysCallable get_buffer_data.now }
    ensures { let p = primitive_handle primitive.now in
        IsWhyAttribute (attribute_kinds semantic.now) (λ b o. F.post get_buffer_data.now b o)
        p.document (attribute p semantic.now) result }
{
    match primitive.get(semantic) {
        Some(accessor) => why::attribute(accessor, semantic, get_buffer_data),
        None => Some(NotRead::Absent),
    }
}

/// The same of `indices`, of which the reader's call is `read_indices`.
pub fn why_no_indices<'s, F: Fn(Buffer) -> Option<&'s [u8]>>(
    primitive: &Primitive,
    get_buffer_data: &F,
) -> Option<NotRead>
    requires { F.IsAlwaysCallable get_buffer_data.now }
    ensures why { let p = primitive_handle primitive.now in
        IsWhyMember indices (λ b o. F.post get_buffer_data.now b o)
        p.document p.json.indices result }
    ensures exact { let p = primitive_handle primitive.now in
        Explains (OfKind indices AreIndices) (λ b o. F.post get_buffer_data.now b o)
        p.document p.json.indices result }
{
    match primitive.indices() {
        Some(accessor) => why::indices(accessor, get_buffer_data),
        None => Some(NotRead::Absent),
    }
}

/// The same of what a morph target displaces (section 3.7.2.2, "Morph Targets"), of which the
/// reader's call is `read_morph_targets`. It reads `POSITION`, `NORMAL` and `TANGENT` alone, and of
/// any other attribute the answer is `NoReader`, whether the target has it or not.
pub fn why_no_displacements<'s, F: Fn(Buffer) -> Option<&'s [u8]>>(
    target: &MorphTarget,
    semantic: &Semantic,
    get_buffer_data: &F,
) -> Option<NotRead>
    requires { F.IsAlwaysCallable get_buffer_data.now }
    ensures why { let t = morph_target_handle target.now in
        IsWhyDisplacement (λ b o. F.post get_buffer_data.now b o) t.document
        (displacement semantic.now t.json) result }
    ensures exact { let t = morph_target_handle target.now in
        ExplainsDisplacement ⟦<[F32; 3] as gltf_items::Item>⟧
        (λ b o. F.post get_buffer_data.now b o) t.document
        (displacement semantic.now t.json) result }
{
    displacement_reason(target, semantic, get_buffer_data)
}

/// The same, by the members of a target.
fn displacement_reason<'s, F: Fn(Buffer) -> Option<&'s [u8]>>(
    target: &MorphTarget,
    semantic: &Semantic,
    get_buffer_data: &F,
) -> Option<NotRead>
    requires { F.IsAlwaysCallable get_buffer_data.now }
    ensures { let t = morph_target_handle target.now in
        IsWhyDisplacement (λ b o. F.post get_buffer_data.now b o) t.document
        (displacement semantic.now t.json) result }
{
    match semantic {
        Semantic::Positions => displacements(target.positions(), get_buffer_data),
        Semantic::Normals => displacements(target.normals(), get_buffer_data),
        Semantic::Tangents => displacements(target.tangents(), get_buffer_data),
        _ => Some(NotRead::NoReader),
    }
}

/// The same of the accessor that such a member names.
fn displacements<'s, F: Fn(Buffer) -> Option<&'s [u8]>>(
    accessor: Option<Accessor>,
    get_buffer_data: &F,
) -> Option<NotRead>
    requires { F.IsAlwaysCallable get_buffer_data.now }
    ensures { (r : Root) (index : Option ℕ) → Follows (IsAccessor r) index accessor.entry
        → IsWhyMember three_floats (λ b o. F.post get_buffer_data.now b o) r index result }
{
    match accessor {
        Some(accessor) => why::three_floats(accessor, get_buffer_data),
        None => Some(NotRead::Absent),
    }
}
