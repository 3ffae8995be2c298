//! Readers of the attributes of a primitive, as integers.
ghost use Rattle.std.specs.Prelude.{◌≡◌};
ghost use Rattle.gltf_handles.specs.Accessors.{accessor_handle};
ghost use Rattle.gltf_json_geometry.specs.declared.semantic.Semantic.TheVariants as attributes;
ghost use Rattle.gltf_read.specs.Primitives.{attribute};
ghost use Rattle.gltf_read.specs.Reading.{IsRead, ReadsMember};
ghost use Rattle.gltf_scene.specs.Meshes.{primitive_handle};
ghost use Rattle.gltf_quantization.specs.Quantized.{AreQuantized, is_accepted};
ghost use Rattle.gltf_quantization.specs.declared.accepted.QuantizedAttribute.TheVariants as added;

use crate::accepted::QuantizedAttribute;
use crate::integers::read_integers;
use crate::quantized::Quantized;
use gltf_data::accessor::Accessor;
use gltf_data::buffer::Buffer;
use gltf_items::Item;
use gltf_scene::mesh::{Primitive, Semantic};

/// Whether the extension adds the type of an accessor to those of an attribute.
fn is_accepted(attribute: QuantizedAttribute, accessor: &Accessor) -> bool
    ensures { result ≡ is_accepted attribute (accessor_handle accessor.now).json }
{
    attribute.accepts(
        accessor.dimensions(),
        accessor.data_type(),
        accessor.normalized(),
    )
}

/// The integers of an accessor that is this attribute.
fn read_as<'s, A: Item, B: Item, C: Item, D: Item, F: Fn(Buffer) -> Option<&'s [u8]>>(
    attribute: QuantizedAttribute,
    accessor: Accessor,
    get_buffer_data: &F,
) -> Option<Quantized<'s, A, B, C, D>>
    requires { F.IsAlwaysCallable get_buffer_data.now }
    ensures { let a = accessor_handle accessor.entry in
        AreQuantized attribute (IsRead (λ b o. F.post get_buffer_data.now b o) a.document a.json)
        a.json result }
{
    if is_accepted(attribute, &accessor) {
        let normalized = accessor.normalized();
        Some(Quantized {
            integers: read_integers(accessor, get_buffer_data)?,
            normalized,
        })
    } else {
        None
    }
}

/// The integers of an accessor of two components that is this attribute; None where the extension
/// does not add its type to the attribute, or where the accessor cannot be read.
pub fn read_vec2s<'s, F: Fn(Buffer) -> Option<&'s [u8]>>(
    attribute: QuantizedAttribute,
    accessor: Accessor,
    get_buffer_data: &F,
) -> Option<Quantized<'s, [i8; 2], [u8; 2], [i16; 2], [u16; 2]>>
    requires { F.IsAlwaysCallable get_buffer_data.now }
    ensures { let a = accessor_handle accessor.entry in
        AreQuantized attribute (IsRead (λ b o. F.post get_buffer_data.now b o) a.document a.json)
        a.json result }
{
    read_as(attribute, accessor, get_buffer_data)
}

/// The integers of an accessor of three components that is this attribute; None where the extension
/// does not add its type to the attribute, or where the accessor cannot be read.
pub fn read_vec3s<'s, F: Fn(Buffer) -> Option<&'s [u8]>>(
    attribute: QuantizedAttribute,
    accessor: Accessor,
    get_buffer_data: &F,
) -> Option<Quantized<'s, [i8; 3], [u8; 3], [i16; 3], [u16; 3]>>
    requires { F.IsAlwaysCallable get_buffer_data.now }
    ensures { let a = accessor_handle accessor.entry in
        AreQuantized attribute (IsRead (λ b o. F.post get_buffer_data.now b o) a.document a.json)
        a.json result }
{
    read_as(attribute, accessor, get_buffer_data)
}

/// The integers of an accessor of four components that is this attribute; None where the extension
/// does not add its type to the attribute, or where the accessor cannot be read.
pub fn read_vec4s<'s, F: Fn(Buffer) -> Option<&'s [u8]>>(
    attribute: QuantizedAttribute,
    accessor: Accessor,
    get_buffer_data: &F,
) -> Option<Quantized<'s, [i8; 4], [u8; 4], [i16; 4], [u16; 4]>>
    requires { F.IsAlwaysCallable get_buffer_data.now }
    ensures { let a = accessor_handle accessor.entry in
        AreQuantized attribute (IsRead (λ b o. F.post get_buffer_data.now b o) a.document a.json)
        a.json result }
{
    read_as(attribute, accessor, get_buffer_data)
}

/// Positions of vertices: `POSITION`. None where the primitive has no such attribute, where the
/// extension does not add its type, or where its accessor cannot be read. The same holds of each
/// reader below.
pub fn read_positions<'s, F: Fn(Buffer) -> Option<&'s [u8]>>(
    primitive: &Primitive,
    get_buffer_data: &F,
) -> Option<Quantized<'s, [i8; 3], [u8; 3], [i16; 3], [u16; 3]>>
    requires { F.IsAlwaysCallable get_buffer_data.now }
    ensures { let p = primitive_handle primitive.now in
        ReadsMember (AreQuantized added.Position) (λ b o. F.post get_buffer_data.now b o) p.document
        (attribute p attributes.Positions) result }
{
    let accessor = primitive.get(&Semantic::Positions)?;
    read_as(QuantizedAttribute::Position, accessor, get_buffer_data)
}

/// Normals of vertices: `NORMAL`.
pub fn read_normals<'s, F: Fn(Buffer) -> Option<&'s [u8]>>(
    primitive: &Primitive,
    get_buffer_data: &F,
) -> Option<Quantized<'s, [i8; 3], [u8; 3], [i16; 3], [u16; 3]>>
    requires { F.IsAlwaysCallable get_buffer_data.now }
    ensures { let p = primitive_handle primitive.now in
        ReadsMember (AreQuantized added.Normal) (λ b o. F.post get_buffer_data.now b o) p.document
        (attribute p attributes.Normals) result }
{
    let accessor = primitive.get(&Semantic::Normals)?;
    read_as(QuantizedAttribute::Normal, accessor, get_buffer_data)
}

/// Tangents of vertices: `TANGENT`.
pub fn read_tangents<'s, F: Fn(Buffer) -> Option<&'s [u8]>>(
    primitive: &Primitive,
    get_buffer_data: &F,
) -> Option<Quantized<'s, [i8; 4], [u8; 4], [i16; 4], [u16; 4]>>
    requires { F.IsAlwaysCallable get_buffer_data.now }
    ensures { let p = primitive_handle primitive.now in
        ReadsMember (AreQuantized added.Tangent) (λ b o. F.post get_buffer_data.now b o) p.document
        (attribute p attributes.Tangents) result }
{
    let accessor = primitive.get(&Semantic::Tangents)?;
    read_as(QuantizedAttribute::Tangent, accessor, get_buffer_data)
}

/// Texture coordinates of vertices: `TEXCOORD_0` and so on.
pub fn read_tex_coords<'s, F: Fn(Buffer) -> Option<&'s [u8]>>(
    primitive: &Primitive,
    set: u32,
    get_buffer_data: &F,
) -> Option<Quantized<'s, [i8; 2], [u8; 2], [i16; 2], [u16; 2]>>
    requires { F.IsAlwaysCallable get_buffer_data.now }
    ensures { let p = primitive_handle primitive.now in
        ReadsMember (AreQuantized added.TexCoord) (λ b o. F.post get_buffer_data.now b o) p.document
        (attribute p (attributes.TexCoords set)) result }
{
    let accessor = primitive.get(&Semantic::TexCoords(set))?;
    read_as(QuantizedAttribute::TexCoord, accessor, get_buffer_data)
}
