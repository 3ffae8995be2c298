//! What a finding says: the sentence of its code, and where it is about a number or a kind, what
//! was found and what was wanted.
ghost use Rattle.std.specs.Prelude.{IfOk, OnOk, ◌++◌, string_bytes};
ghost use Rattle.gltf_findings.specs.Codes.{sentence};
ghost use Rattle.gltf_messages.specs.Messages.{IsSaidOf, IsLonger};

use crate::kinds;
use crate::pointer::push_pointer;
use gltf_findings::code::Code;
use gltf_inspect_meshes::item::{component_size, item_size, last_size, or_zero};
use gltf_inspect_meshes::target::target_count;
use gltf_json::root::Root;
use gltf_json_animation::animation::Animation;
use gltf_json_geometry::accessor::Accessor;
use gltf_json_geometry::buffer::View;
use gltf_json_geometry::mesh::{Mesh, Primitive};
use gltf_json_geometry::semantic::Semantic;
use gltf_json_record::boxed::lent;
use gltf_json_record::path::{Path, Step};
use gltf_json_scene::scene::Node;
use gltf_json_scene::skin::Skin;
use serde_json::Value;
use std::alloc::{AllocError, Global};

/// What a number should have been.
#[derive(Clone, Copy)]
enum Wanted {
    AtLeast(u64),
    AtMost(u64),
    /// At least the first, and at most the second.
    Between(u64, u64),
    MultipleOf(u64),
    Exactly(u64),
}

/// A number, and what it should have been.
#[derive(Clone, Copy)]
struct Numbers {
    found: u64,
    wanted: Wanted,
}

fn compared(found: u64, wanted: Wanted) -> Option<Numbers> {
    Some(Numbers { found, wanted })
}

/// The text of a finding at a place, with its numbers where there is a document and it is about
/// numbers of records, and with its kinds where there is the JSON value of the file and it is about
/// the kind of a part. Fails where there is no memory.
pub fn message(
    alloc: Global,
    root: Option<&Root>,
    value: Option<&Value>,
    place: &Path,
    code: Code,
) -> Result<String, AllocError>
    ensures { IfOk result (λ text. IsSaidOf code (string_bytes text)) }
{
    let mut pointer = String::new(alloc);
    if value.is_some() && is_about_a_kind(code) {
        push_pointer(place, &mut pointer)?;
    }
    let mut text = String::new(alloc);
    push_message(alloc, root, value, place, pointer.as_str(), code, &mut text)?;
    Ok(text)
}

/// Appends the text that [`message`] gives, where `pointer` is the JSON Pointer of the place. Fails
/// where there is no memory, and has then appended a part of it.
pub(crate) fn push_message(
    alloc: Global,
    root: Option<&Root>,
    value: Option<&Value>,
    place: &Path,
    pointer: &str,
    code: Code,
    text: &mut String,
) -> Result<(), AllocError>
    ensures { OnOk result
        (IsLonger (string_bytes text.old ++ sentence code) (string_bytes text.new)) }
{
    text.push_str(code.sentence())?;
    if let Some(part) = part_of_a_kind(value, pointer, code) {
        let wanted = kinds::wanted(place.steps());
        return push_kinds(alloc, part, wanted, text);
    }
    let numbers = match root {
        Some(root) => numbers_at(alloc, root, place.steps(), code)?,
        None => None,
    };
    match numbers {
        Some(numbers) => push_numbers(numbers, text),
        None => Ok(()),
    }
}

fn is_about_a_kind(code: Code) -> bool {
    matches!(code, Code::TypeMismatch | Code::ArrayTypeMismatch)
}

/// The part of the file where a finding stands that is about its kind.
fn part_of_a_kind<'v>(value: Option<&'v Value>, pointer: &str, code: Code) -> Option<&'v Value> {
    if is_about_a_kind(code) {
        value?.pointer(pointer)
    } else {
        None
    }
}

fn push_kinds(
    alloc: Global,
    part: &Value,
    wanted: &str,
    text: &mut String,
) -> Result<(), AllocError>
    ensures { OnOk result (IsLonger (string_bytes text.old) (string_bytes text.new)) }
{
    text.push_str(" Found ")?;
    kinds::push_kind(alloc, part, text)?;
    write!(text, ", wanted {wanted}.")
}

fn push_numbers(numbers: Numbers, text: &mut String) -> Result<(), AllocError>
    ensures { OnOk result (IsLonger (string_bytes text.old) (string_bytes text.new)) }
{
    let Numbers { found, wanted } = numbers;
    match wanted {
        Wanted::AtLeast(n) => write!(text, " Found {found}, wanted at least {n}."),
        Wanted::AtMost(n) => write!(text, " Found {found}, wanted at most {n}."),
        Wanted::Between(n, m) => write!(text, " Found {found}, wanted {n} to {m}."),
        Wanted::MultipleOf(n) => write!(text, " Found {found}, wanted a multiple of {n}."),
        Wanted::Exactly(n) => write!(text, " Found {found}, wanted {n}."),
    }
}

fn numbers_at(
    alloc: Global,
    root: &Root,
    steps: &[Step],
    code: Code,
) -> Result<Option<Numbers>, AllocError> {
    let [list, i, rest @ ..] = steps else {
        return Ok(None);
    };
    let (Some(list), Some(i)) = (member(list), item(i)) else {
        return Ok(None);
    };
    if list == "meshes" {
        return match root.meshes.get(i) {
            Some(mesh) => of_mesh(alloc, root, mesh, rest, code),
            None => Ok(None),
        };
    }
    Ok(of_record(root, list, i, rest, code))
}

fn member(step: &Step) -> Option<&'static str> {
    match step {
        Step::Member(name) => Some(*name),
        _ => None,
    }
}

fn item(step: &Step) -> Option<usize> {
    match step {
        Step::Item(i) => Some(*i),
        _ => None,
    }
}

fn of_record(root: &Root, list: &str, i: usize, rest: &[Step], code: Code) -> Option<Numbers> {
    match list {
        "accessors" => of_accessor(root, root.accessors.get(i)?, rest, code),
        "animations" => of_animation(root, root.animations.get(i)?, rest, code),
        "buffers" => of_range(root.buffers.get(i)?.byte_length, code),
        "bufferViews" => of_view(root, root.buffer_views.get(i)?, rest, code),
        "nodes" => of_node(root, root.nodes.get(i)?, code),
        "skins" => of_skin(root, root.skins.get(i)?, code),
        _ => None,
    }
}

fn of_range(found: u64, code: Code) -> Option<Numbers> {
    match code {
        Code::ValueNotInRange => compared(found, Wanted::AtLeast(1)),
        _ => None,
    }
}

fn of_view(root: &Root, view: &View, rest: &[Step], code: Code) -> Option<Numbers> {
    let stride = or_zero(view.byte_stride);
    match code {
        Code::ValueNotInRange => match rest {
            [Step::Member("byteStride")] => compared(stride, Wanted::Between(4, 252)),
            _ => compared(view.byte_length, Wanted::AtLeast(1)),
        },
        Code::ValueMultipleOf => compared(stride, Wanted::MultipleOf(4)),
        Code::ViewTooBigByteStride => compared(stride, Wanted::AtMost(view.byte_length)),
        Code::ViewTooLong => {
            let end = or_zero(view.byte_offset).saturating_add(view.byte_length);
            let buffer = root.buffers.get(view.buffer.value())?;
            compared(end, Wanted::AtMost(buffer.byte_length))
        }
        _ => None,
    }
}

fn view_of<'r>(root: &'r Root, accessor: &Accessor) -> Option<&'r View> {
    root.buffer_views.get(accessor.buffer_view?.value())
}

fn of_accessor(root: &Root, accessor: &Accessor, rest: &[Step], code: Code) -> Option<Numbers> {
    match rest {
        [] | [Step::Member("byteOffset" | "count")] => of_items(root, accessor, code),
        [Step::Member("sparse"), Step::Member("count")] => {
            let replaced = lent(&accessor.sparse)?.count;
            match code {
                Code::SparseCountOutOfRange => compared(replaced, Wanted::AtMost(accessor.count)),
                _ => of_range(replaced, code),
            }
        }
        _ => None,
    }
}

fn of_items(root: &Root, accessor: &Accessor, code: Code) -> Option<Numbers> {
    let size = component_size(accessor.component_type);
    let offset = or_zero(accessor.byte_offset);
    match code {
        Code::OffsetAlignment => compared(offset, Wanted::MultipleOf(size)),
        Code::TotalOffsetAlignment => {
            let view = view_of(root, accessor)?;
            let total = offset.saturating_add(or_zero(view.byte_offset));
            compared(total, Wanted::MultipleOf(size))
        }
        Code::SmallByteStride => {
            let view = view_of(root, accessor)?;
            let packed = item_size(accessor.type_, size);
            compared(or_zero(view.byte_stride), Wanted::AtLeast(packed))
        }
        Code::AccessorTooLong => {
            let view = view_of(root, accessor)?;
            compared(end_of(accessor, view), Wanted::AtMost(view.byte_length))
        }
        _ => of_range(accessor.count, code),
    }
}

/// Where the items of an accessor end in its view.
fn end_of(accessor: &Accessor, view: &View) -> u64 {
    let size = component_size(accessor.component_type);
    let stride = match view.byte_stride {
        Some(stride) => stride,
        None => item_size(accessor.type_, size),
    };
    let before = stride.saturating_mul(accessor.count.saturating_sub(1));
    let last = last_size(accessor.type_, size);
    or_zero(accessor.byte_offset)
        .saturating_add(before)
        .saturating_add(last)
}

fn of_animation(root: &Root, animation: &Animation, rest: &[Step], code: Code) -> Option<Numbers> {
    let [Step::Member("samplers"), s, ..] = rest else {
        return None;
    };
    let sampler = animation.samplers.get(item(s)?)?;
    match code {
        Code::InputTooFewElements => {
            compared(
                root.accessors.get(sampler.input.value())?.count,
                Wanted::AtLeast(2),
            )
        }
        _ => None,
    }
}

fn of_skin(root: &Root, skin: &Skin, code: Code) -> Option<Numbers> {
    match code {
        Code::IbmCount => {
            let matrices = root.accessors.get(skin.inverse_bind_matrices?.value())?;
            compared(matrices.count, Wanted::AtLeast(skin.joints.len() as u64))
        }
        _ => None,
    }
}

/// How many weights there are, where they are a list, and how many there should be.
fn of_weights(weights: Option<&Value>, mesh: &Mesh) -> Option<Numbers> {
    let weights = weights?.as_array()?.len() as u64;
    let targets = target_count(mesh.primitives.as_slice()) as u64;
    compared(weights, Wanted::Exactly(targets))
}

fn of_node(root: &Root, node: &Node, code: Code) -> Option<Numbers> {
    match code {
        Code::NodeWeightsInvalid => {
            of_weights(node.weights.as_ref(), root.meshes.get(node.mesh?.value())?)
        }
        _ => None,
    }
}

fn of_mesh(
    alloc: Global,
    root: &Root,
    mesh: &Mesh,
    rest: &[Step],
    code: Code,
) -> Result<Option<Numbers>, AllocError> {
    if let [Step::Member("weights")] = rest {
        return Ok(of_weights(mesh.weights.as_ref(), mesh));
    }
    let [
        Step::Member("primitives"),
        j,
        Step::Member("attributes"),
        attribute,
    ] = rest
    else {
        return Ok(None);
    };
    let Step::Attribute(name) = attribute else {
        return Ok(None);
    };
    let Some(j) = item(j) else {
        return Ok(None);
    };
    match mesh.primitives.get(j) {
        Some(primitive) => of_attribute(alloc, root, primitive, name.as_str(), code),
        None => Ok(None),
    }
}

/// The number of items of the accessor of the attribute of this name.
fn count_of(
    alloc: Global,
    root: &Root,
    primitive: &Primitive,
    name: &str,
) -> Result<Option<u64>, AllocError> {
    Ok(match Semantic::of_name(alloc, name)? {
        Some(semantic) => count_at(root, primitive, &semantic),
        None => None,
    })
}

/// The number of items of the accessor of an attribute.
fn count_at(root: &Root, primitive: &Primitive, semantic: &Semantic) -> Option<u64> {
    let index = primitive.attributes.get(semantic)?;
    Some(root.accessors.get(index.value())?.count)
}

fn of_attribute(
    alloc: Global,
    root: &Root,
    primitive: &Primitive,
    name: &str,
    code: Code,
) -> Result<Option<Numbers>, AllocError> {
    if !matches!(code, Code::UnequalAccessorCount) {
        return Ok(None);
    }
    let count = count_of(alloc, root, primitive, name)?;
    Ok(
        match (count, count_at(root, primitive, &Semantic::Positions)) {
            (Some(found), Some(wanted)) => compared(found, Wanted::Exactly(wanted)),
            _ => None,
        },
    )
}
