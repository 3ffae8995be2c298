//! What vertices are joined to, and the keyframes of splines.
use gltf::json::accessor::ComponentType;
use gltf::json::mesh::Mode;
use gltf_case::asked::Asked;
use gltf_case::shown::{Written, show};
use gltf_geometry::{
    Items, Sequence, Vertices, indices_in_range, lines, none_restarts, points, restart_index,
    spline, triangles,
};
use std::alloc::{AllocError, Global};
use std::fmt::Debug;

/// Writes what is made of the given numbers.
///
/// - `triangles MODE STEP..`, `lines MODE STEP..`, `points MODE STEP..`: of indices, or of so many
///   vertices without indices where `count:COUNT` is given. A mode is its code.
/// - `spline STEP..`: of outputs.
/// - `range COUNT`: whether all are below a count.
/// - `restart CODE`: the index of a type of components that restarts a primitive, and whether none
///   is that.
pub(crate) fn write(alloc: Global, asked: Asked<'_>, line: &mut String) -> Written {
    let numbers = numbers_of(alloc, asked.given)?;
    match asked.call {
        "spline" => write_items(alloc, spline(&numbers), asked.words, line),
        "range" => write!(line, "{}", indices_in_range(&numbers, asked.number(0))),
        "restart" => write_restart(asked.number(0), &numbers, line),
        _ => write_joined(alloc, asked, vertices_of(asked.given, &numbers), line),
    }
}

/// The numbers among words; others are passed over.
fn numbers_of(alloc: Global, words: &str) -> Result<Vec<u32>, AllocError> {
    let mut numbers = Vec::new(alloc);
    for word in words.split_whitespace() {
        if let Ok(number) = word.parse::<u32>() {
            numbers.push(number)?;
        }
    }
    Ok(numbers)
}

/// Vertices by their number, where it is given, else those that indices name.
fn vertices_of<'n>(given: &str, indices: &'n [u32]) -> Vertices<'n> {
    match given.strip_prefix("count:") {
        Some(count) => Vertices::Count(count.parse::<u32>().unwrap_or(0)),
        None => Vertices::Indices(indices),
    }
}

/// Writes what vertices are joined to, by a mode.
fn write_joined(
    alloc: Global,
    asked: Asked<'_>,
    vertices: Vertices<'_>,
    line: &mut String,
) -> Written {
    let mode = mode_of(asked.number(0));
    let steps = asked.inner().words;
    match asked.call {
        "triangles" => write_items(alloc, triangles(mode, vertices), steps, line),
        "lines" => write_items(alloc, lines(mode, vertices), steps, line),
        _ => write_items(alloc, points(mode, vertices), steps, line),
    }
}

/// Writes the index that restarts a primitive, and whether no index is that.
fn write_restart(code: usize, indices: &[u32], line: &mut String) -> Written {
    match restart_index(component_of(code)) {
        Some(restart) => write!(line, "{restart}; {}", none_restarts(indices, restart)),
        None => line.push_str("none"),
    }
}

/// The type of components of a code (glTF 2.0, section 5.1.3).
fn component_of(code: usize) -> ComponentType {
    match code {
        5120 => ComponentType::I8,
        5121 => ComponentType::U8,
        5122 => ComponentType::I16,
        5123 => ComponentType::U16,
        5125 => ComponentType::U32,
        _ => ComponentType::F32,
    }
}

/// The mode of a code (glTF 2.0, section 5.24.4).
fn mode_of(code: usize) -> Mode {
    match code {
        0 => Mode::Points,
        1 => Mode::Lines,
        2 => Mode::LineLoop,
        3 => Mode::LineStrip,
        4 => Mode::Triangles,
        5 => Mode::TriangleStrip,
        _ => Mode::TriangleFan,
    }
}

/// Writes what each step over items gives, where there are items.
fn write_items<S: Sequence>(
    alloc: Global,
    items: Option<Items<S>>,
    steps: &str,
    line: &mut String,
) -> Written
where
    S::Item: Debug,
{
    let Some(mut items) = items else {
        return line.push_str("no items");
    };
    for step in steps.split_whitespace() {
        if !line.is_empty() {
            line.push_str("; ")?;
        }
        write_step(alloc, &mut items, step, line)?;
    }
    Ok(())
}

/// Writes what a step over items gives: `next`, `nth:NUMBER`, `len`, `hint`, and `all`, which is
/// all of a copy.
fn write_step<S: Sequence>(
    alloc: Global,
    items: &mut Items<S>,
    step: &str,
    line: &mut String,
) -> Written
where
    S::Item: Debug,
{
    match step {
        "next" => show(Ok(items.next()), line),
        "len" => write!(line, "{}", items.len()),
        "hint" => write!(line, "{:?}", items.size_hint()),
        "all" => show(all_of(alloc, items), line),
        _ => {
            let places = step.strip_prefix("nth:").unwrap_or("");
            show(Ok(items.nth(places.parse::<usize>().unwrap_or(0))), line)
        }
    }
}

/// All items that are left.
fn all_of<S: Sequence>(alloc: Global, items: &Items<S>) -> Result<Vec<S::Item>, AllocError> {
    items.clone()?.collect(alloc)
}
