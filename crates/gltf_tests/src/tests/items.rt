//! Items of accessors over imported buffers, and by a closure that gives the bytes of buffers.
use crate::tests::texts::{THREE_BUFFERS, TWO_NUMBERS};
use gltf::accessor::{Accessor, Iter};
use gltf::buffer::{Buffer, Data};
use gltf::{Document, Gltf, import_slice, imported_items};
use std::cell::Cell;
use std::process::Abort;
use std::test::Fail;

#[test]
fn no_items_are_imported_without_accessor_or_buffer(rt: HostRuntime) -> Result<(), Fail> {
    let (document, buffers) = import_slice(rt.alloc(), TWO_NUMBERS.as_bytes())?;
    compare_none(&rt, &document, &buffers);
    Ok(())
}

/// A document of one accessor, and its buffer.
fn compare_none(rt: &impl Abort, document: &Document, buffers: &[Data]) {
    assert!(rt; imported_items::<u16>(document, buffers, 0).is_some());
    assert!(rt; imported_items::<u16>(document, buffers, 1).is_none());
    assert!(rt; imported_items::<u16>(document, &buffers[..0], 0).is_none());
    assert_eq!(rt; gltf::iter::accessors(document.as_valid()).len(), 1);
}

#[test]
fn the_closure_is_asked_once_for_each_view_that_is_reached(rt: HostRuntime) -> Result<(), Fail> {
    let file = Gltf::from_slice(rt.alloc(), THREE_BUFFERS.as_bytes())?;
    compare_questions(&rt, &file)
}

/// What is asked where one of the three buffers has no bytes, and where each has some.
fn compare_questions(rt: &impl Abort, file: &Gltf) -> Result<(), Fail> {
    for (missing, wanted) in [(9, 123), (0, 1), (1, 12), (2, 123)] {
        let accessor = file.accessors().next().ok_or("an accessor")?;
        let (is_read, asked) = asked_of(accessor, missing);
        assert_eq!(rt; is_read, missing == 9);
        assert_eq!(rt; asked, wanted);
    }
    Ok(())
}

/// Whether an accessor is read where a buffer is missing, and what is asked: each question adds a
/// digit, the number of the buffer from 1 on.
fn asked_of(accessor: Accessor<'_>, missing: usize) -> (bool, usize) {
    let asked = Cell::new(0usize);
    let bytes = [1, 3, 7, 9];
    let read = Iter::<u8>::new(
        accessor,
        &|buffer: Buffer| {
            let number = buffer.index().wrapping_add(1);
            asked.set(asked.get().wrapping_mul(10).wrapping_add(number));
            if buffer.index() == missing {
                None
            } else {
                Some(bytes.as_slice())
            }
        },
    );
    (read.is_some(), asked.get())
}
