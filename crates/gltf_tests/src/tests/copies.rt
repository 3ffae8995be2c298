//! Copies that are apart from their sources, and documents that are replaced in place.
use crate::tests::texts::{TWO_NODES, TWO_NUMBERS, records};
use gltf::buffer::Data;
use gltf::{Document, Gltf};
use std::ops::DerefMut;
use std::process::Abort;
use std::test::Fail;

#[test]
fn a_copy_stays_as_it_is_where_its_source_changes(rt: HostRuntime) -> Result<(), Fail> {
    let mut data = Data(Vec::from_slice(rt.alloc(), &[1, 0, 2, 0])?);
    let copy = data.clone(rt.alloc())?;
    data.0.push(9)?;
    assert_eq!(rt; copy.0.as_slice(), [1u8, 0, 2, 0].as_slice());
    Ok(())
}

#[test]
fn the_document_of_a_file_can_be_replaced(rt: HostRuntime) -> Result<(), Fail> {
    let mut file = Gltf::from_slice(rt.alloc(), TWO_NUMBERS.as_bytes())?;
    compare_lists(&rt, &file, 1, 0);
    let root = records(rt.alloc(), TWO_NODES)?;
    *file.deref_mut() = Document::from_json(rt.alloc(), root)?;
    compare_lists(&rt, &file, 0, 2);
    Ok(())
}

/// How many accessors and nodes a file has.
fn compare_lists(rt: &impl Abort, file: &Gltf, accessors: usize, nodes: usize) {
    assert_eq!(rt; file.accessors().count(), accessors);
    assert_eq!(rt; file.as_json().nodes.len(), nodes);
}
