//! Marks: of each node, whether it was named.
ghost use Rattle.std.specs.Prelude.{◌≡◌, IfOk, set, true, []};
ghost use Rattle.gltf_inspect_nodes.specs.Marks.{is_marked, marked, cleared, marked_all, AreMarks};
ghost use Rattle.gltf_inspect_nodes.specs.Named.{all_named};

use crate::entry::Entry;
use crate::named::Names;
use gltf_json_record::index::Index;
use gltf_json_record::kinds;
use std::alloc::{AllocError, Global};

/// No marks, of so many nodes. Takes a byte a node.
pub(crate) fn no_marks(alloc: Global, count: usize) -> Result<Vec<bool>, AllocError>
    ensures { IfOk result (λ marks. AreMarks count [] marks.items) }
{
    vec![in alloc; false; count]
}

/// The marks of all nodes that the elements of a list name.
pub(crate) fn marks_of<T: Names>(
    alloc: Global,
    count: usize,
    values: &[T],
) -> Result<Vec<bool>, AllocError>
    ensures { IfOk result (λ marks. AreMarks count (all_named T.named values.now) marks.items) }
{
    let mut marks = no_marks(alloc, count)?;
    mark_all(&mut marks, values);
    Ok(marks)
}

fn mark_all<T: Names>(marks: &mut Vec<bool>, values: &[T])
    ensures { marks.new.items ≡ marked_all T.named marks.old.items values.now }
{
    for value in values {
        mark_each(marks, value.named());
    }
}

fn mark_each(marks: &mut Vec<bool>, nodes: &[Index<kinds::Node>])
    ensures { marks.new.items ≡ marked marks.old.items nodes.now }
{
    for node in nodes {
        let _was = mark(marks, node.value());
    }
}

/// Marks a node, and answers whether it was.
pub(crate) fn mark(marks: &mut Vec<bool>, node: usize) -> bool
    ensures was { result ≡ is_marked marks.old.items node }
    ensures now { marks.new.items ≡ set marks.old.items node true }
{
    if node < marks.len() {
        let was = marks[node];
        marks[node] = true;
        was
    } else {
        false
    }
}

/// Takes the marks of these away.
pub(crate) fn clear<E: Entry>(marks: &mut Vec<bool>, entries: &[E])
    ensures { marks.new.items ≡ cleared E.key marks.old.items entries.now }
{
    for entry in entries {
        let key = entry.key();
        if key < marks.len() {
            marks[key] = false;
        }
    }
}

/// Whether a node is marked.
pub(crate) fn is_marked(marks: &[bool], node: usize) -> bool
    ensures { result ≡ is_marked marks.now node }
{
    node < marks.len() && marks[node]
}
