//! A box as its pointer alone.
ghost use Rattle.std.specs.Prelude.{◌≡◌};
ghost use Rattle.std_alloc.specs.Box.Ownership.{box_owns};
ghost use Rattle.gltf_c_block.specs.Heap.{right_to_free};

use std::alloc::Global;
use std::marker::Model;

/// What stood in a box, and the right to free it.
pub(crate) struct Bare<T> {
    pub(crate) at: *mut T,
    pub(crate) ghost value: { T },
}

impl<T> Model for Bare<T> {
    ghost also_owns = { λ part. box_owns right_to_free T.row part.at part.value };
}

/// Takes a box apart.
pub(crate) fn into_bare<T: Drop>(held: Box<T>) -> Bare<T>
    ensures { result.value ≡ held.value }
{
    Bare {
        at: Box::into_raw(held),
    }
}

/// Makes a box of it again.
pub(crate) fn into_box<T: Drop>(alloc: Global, part: Bare<T>) -> Box<T>
    ensures { result.value ≡ part.value }
{
    let Bare { at } = part;
    unsafe { Box::from_raw(alloc, at) }
}
