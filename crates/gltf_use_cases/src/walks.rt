//! Walks over nodes.
use gltf::{Document, Gltf};
use gltf_case::asked::Asked;
use gltf_case::refused::write_error;
use gltf_case::shown::Written;
use gltf_walk::{Step, walk, walk_scene};
use std::alloc::{AllocError, Global};

/// Writes the nodes of a scene and those below them: `walk SCENE`.
pub(crate) fn write_scene(
    alloc: Global,
    asked: Asked<'_>,
    document: &Document,
    line: &mut String,
) -> Written {
    match document.scenes().nth(asked.number(0)) {
        Some(scene) => write_steps(&walk_scene(alloc, &scene)?, line),
        None => line.push_str("no scene"),
    }
}

/// Writes the children of a node and those below them: `below NODE`.
pub(crate) fn write_below(
    alloc: Global,
    asked: Asked<'_>,
    document: &Document,
    line: &mut String,
) -> Written {
    match document.nodes().nth(asked.number(0)) {
        Some(node) => write_steps(&walk(alloc, node.children())?, line),
        None => line.push_str("no node"),
    }
}

/// Writes each step of a walk.
fn write_steps(steps: &[Step<'_>], line: &mut String) -> Written {
    if steps.is_empty() {
        return line.push_str("no steps");
    }
    for step in steps {
        if !line.is_empty() {
            line.push_str("; ")?;
        }
        write_step(step, line)?;
    }
    Ok(())
}

/// Writes a step: the node, how deep it is, whose child it is, and whether an earlier step has it.
fn write_step(step: &Step<'_>, line: &mut String) -> Written {
    write!(line, "{} at {}", step.node.index(), step.depth)?;
    if let Some(parent) = step.parent {
        write!(line, " below {parent}")?;
    }
    if step.again {
        line.push_str(" again")?;
    }
    Ok(())
}

/// Writes how many steps there are over nodes each of which is a child of the one before it, and
/// the last step: `chain COUNT`. With `ring COUNT` the first is a child of the last.
pub(crate) fn write_made(alloc: Global, asked: Asked<'_>, line: &mut String) -> Written {
    let text = text_of(alloc, asked)?;
    match &Gltf::from_slice(alloc, text.as_bytes()) {
        Ok(file) => write_last(alloc, &file.document, line),
        Err(error) => write_error(asked, error, line),
    }
}

/// The text of a document of so many nodes, and one more at the end of a chain.
fn text_of(alloc: Global, asked: Asked<'_>) -> Result<String, AllocError> {
    let head = r#"{"asset":{"version":"2.0"},"scenes":[{"nodes":[0]}],"nodes":["#;
    let mut text = String::from_str(alloc, head)?;
    for child in 1..asked.number(0) {
        write!(text, r#"{{"children":[{child}]}},"#)?;
    }
    if asked.call == "ring" {
        text.push_str(r#"{"children":[0]}]}"#)?;
    } else {
        text.push_str("{}]}")?;
    }
    Ok(text)
}

/// Writes how many steps a walk over the first scene has, and the last of them.
fn write_last(alloc: Global, document: &Document, line: &mut String) -> Written {
    match document.scenes().nth(0) {
        Some(scene) => write_last_of(&walk_scene(alloc, &scene)?, line),
        None => line.push_str("no scene"),
    }
}

/// Writes how many steps there are, and the last of them.
fn write_last_of(steps: &[Step<'_>], line: &mut String) -> Written {
    match steps.last() {
        Some(last) => {
            write!(line, "{} steps, the last ", steps.len())?;
            write_step(last, line)
        }
        None => line.push_str("no steps"),
    }
}
