//! Why readers read nothing.
use crate::buffers::buffers_of;
use gltf::buffer::{Data, bytes_of};
use gltf::mesh::{Primitive, Reader, Semantic};
use gltf::{Buffer, Document, animation, skin};
use gltf_access::NotRead;
use gltf_access::animation::{why_no_inputs, why_no_outputs};
use gltf_access::mesh::{why_no_displacements, why_no_indices, why_not_read};
use gltf_access::skin::why_no_inverse_bind_matrices;
use gltf_case::asked::Asked;
use gltf_case::shown::Written;
use std::alloc::Global;

/// Writes why a reader reads nothing, or that it reads: `why +DIGITS,DIGITS.. WHAT`. This is
/// `inverseBindMatrices` of the first skin, `input` or `output` of the first channel of the first
/// animation, and of the first primitive of the first mesh `indices`, an attribute, or
/// `targets/ATTRIBUTE` of its first morph target.
pub(crate) fn write(
    alloc: Global,
    asked: Asked<'_>,
    document: &Document,
    line: &mut String,
) -> Written {
    let buffers = buffers_of(alloc, asked)?;
    write_over(alloc, asked.word(0), document, &buffers, line)
}

fn write_over(
    alloc: Global,
    name: &str,
    document: &Document,
    buffers: &[Data],
    line: &mut String,
) -> Written {
    let given = |buffer: Buffer| bytes_of(buffers, buffer);
    match name {
        "inverseBindMatrices" => write_skin(document, &given, line),
        "input" => write_inputs(document, &given, line),
        "output" => write_outputs(document, &given, line),
        "indices" => write_indices(document, &given, line),
        _ => match name.strip_prefix("targets/") {
            Some(name) => match &Semantic::of_name(alloc, name)? {
                Some(semantic) => write_target(document, semantic, &given, line),
                None => line.push_str("no attribute"),
            },
            None => match &Semantic::of_name(alloc, name)? {
                Some(semantic) => write_attribute(document, semantic, &given, line),
                None => line.push_str("no attribute"),
            },
        },
    }
}

/// The first channel of the first animation.
fn first_channel(document: &Document) -> Option<animation::Channel<'_>> {
    document.animations().nth(0)?.channels().nth(0)
}

/// The first primitive of the first mesh.
fn first_primitive(document: &Document) -> Option<Primitive<'_>> {
    document.meshes().nth(0)?.primitives().nth(0)
}

fn write_skin<'s, F: Fn(Buffer) -> Option<&'s [u8]>>(
    document: &Document,
    given: &F,
    line: &mut String,
) -> Written
    requires { F.IsAlwaysCallable given.now }
{
    match document.skins().nth(0) {
        Some(skin) => {
            let read = skin::Reader::new(&skin, given).read_inverse_bind_matrices();
            write_reason(
                why_no_inverse_bind_matrices(&skin, given),
                read.is_some(),
                line,
            )
        }
        None => line.push_str("no skin"),
    }
}

fn write_inputs<'s, F: Fn(Buffer) -> Option<&'s [u8]>>(
    document: &Document,
    given: &F,
    line: &mut String,
) -> Written
    requires { F.IsAlwaysCallable given.now }
{
    match first_channel(document) {
        Some(channel) => {
            let read = animation::Reader::new(&channel, given).read_inputs();
            write_reason(why_no_inputs(&channel, given), read.is_some(), line)
        }
        None => line.push_str("no channel"),
    }
}

fn write_outputs<'s, F: Fn(Buffer) -> Option<&'s [u8]>>(
    document: &Document,
    given: &F,
    line: &mut String,
) -> Written
    requires { F.IsAlwaysCallable given.now }
{
    match first_channel(document) {
        Some(channel) => {
            let read = animation::Reader::new(&channel, given).read_outputs();
            write_reason(why_no_outputs(&channel, given), read.is_some(), line)
        }
        None => line.push_str("no channel"),
    }
}

fn write_indices<'s, F: Fn(Buffer) -> Option<&'s [u8]>>(
    document: &Document,
    given: &F,
    line: &mut String,
) -> Written
    requires { F.IsAlwaysCallable given.now }
{
    match first_primitive(document) {
        Some(primitive) => {
            let read = Reader::new(&primitive, given).read_indices();
            write_reason(why_no_indices(&primitive, given), read.is_some(), line)
        }
        None => line.push_str("no primitive"),
    }
}

fn write_attribute<'s, F: Fn(Buffer) -> Option<&'s [u8]>>(
    document: &Document,
    semantic: &Semantic,
    given: &F,
    line: &mut String,
) -> Written
    requires { F.IsAlwaysCallable given.now }
{
    match first_primitive(document) {
        Some(primitive) => {
            let is_read = is_read(document, semantic, given);
            write_reason(why_not_read(&primitive, semantic, given), is_read, line)
        }
        None => line.push_str("no primitive"),
    }
}

/// Whether the reader of the first primitive reads an attribute.
fn is_read<'s, F: Fn(Buffer) -> Option<&'s [u8]>>(
    document: &Document,
    semantic: &Semantic,
    given: &F,
) -> bool
    requires { F.IsAlwaysCallable given.now }
{
    let Some(primitive) = first_primitive(document) else {
        return false;
    };
    let reader = Reader::new(&primitive, given);
    match semantic {
        Semantic::Extras(_) => false,
        Semantic::Positions => reader.read_positions().is_some(),
        Semantic::Normals => reader.read_normals().is_some(),
        Semantic::Tangents => reader.read_tangents().is_some(),
        Semantic::Colors(set) => reader.read_colors(*set).is_some(),
        Semantic::TexCoords(set) => reader.read_tex_coords(*set).is_some(),
        Semantic::Joints(set) => reader.read_joints(*set).is_some(),
        Semantic::Weights(set) => reader.read_weights(*set).is_some(),
    }
}

fn write_target<'s, F: Fn(Buffer) -> Option<&'s [u8]>>(
    document: &Document,
    semantic: &Semantic,
    given: &F,
    line: &mut String,
) -> Written
    requires { F.IsAlwaysCallable given.now }
{
    let Some(primitive) = first_primitive(document) else {
        return line.push_str("no primitive");
    };
    match primitive.morph_targets().nth(0) {
        Some(target) => write_reason(
            why_no_displacements(&target, semantic, given),
            is_displaced(&primitive, semantic, given),
            line,
        ),
        None => line.push_str("no target"),
    }
}

/// Whether the reader of a primitive reads what its first morph target adds to an attribute.
fn is_displaced<'s, F: Fn(Buffer) -> Option<&'s [u8]>>(
    primitive: &Primitive,
    semantic: &Semantic,
    given: &F,
) -> bool
    requires { F.IsAlwaysCallable given.now }
{
    let Some((positions, normals, tangents)) = Reader::new(primitive, given)
        .read_morph_targets()
        .next()
    else {
        return false;
    };
    match semantic {
        Semantic::Positions => positions.is_some(),
        Semantic::Normals => normals.is_some(),
        Semantic::Tangents => tangents.is_some(),
        _ => false,
    }
}

/// Writes a reason, or that there is none; and where the reader does otherwise, that it does.
fn write_reason(reason: Option<NotRead>, is_read: bool, line: &mut String) -> Written {
    match reason {
        Some(reason) => {
            write!(line, "{reason:?}: {reason}")?;
            if is_read {
                line.push_str("; the reader gives items")?;
            }
        }
        None => {
            line.push_str("read")?;
            if !is_read {
                line.push_str("; the reader gives none")?;
            }
        }
    }
    Ok(())
}
