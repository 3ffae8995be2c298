//! What is taken from a document.
ghost use Rattle.std.specs.Prelude.{IfOk};
ghost use Rattle.serde_json.specs.View.{view};
ghost use Rattle.gltf_trim.specs.Tails.{bytes_of};
ghost use Rattle.gltf_trim.specs.Trims.{IsTrimOf};

use crate::lengths::lengths;
use crate::marks::staying;
use serde_json::Value;
use std::alloc::{AllocError, Global};

/// What is left of the views and buffers of a document.
#[derive(Debug, Drop)]
pub struct Trim {
    /// How many views stay: the first of the list.
    pub views: usize,
    /// How many bytes each buffer has, by index, where it becomes shorter.
    pub lengths: Vec<Option<u64>>,
}

/// What is left of a document whose images go into files of their own, and whose buffers have these
/// bytes.
///
/// All views stay but those at the end of the list that images name, and that no accessor names:
/// so none has another index. All stay where the document lists an extension as used that is not
/// known here, or where a member `extensions`, however deep, in `extras` too, is anything but an
/// object of known ones: what is not known might name a view. Nothing else in extras is looked at.
///
/// The buffer of a view that goes ends where the last view that stays in it ends, and it has one
/// byte at least; but it stays whole where anything stands behind that end that is not zero, and in
/// no view that goes. So only zeros and bytes of views that go are lost, and what is left keeps its
/// place.
pub fn trim_of(alloc: Global, document: &Value, buffers: &[Vec<u8>]) -> Result<Trim, AllocError>
    ensures { IfOk result (IsTrimOf (view document.now) (bytes_of buffers.now)) }
{
    let views = staying(alloc, document)?;
    let lengths = lengths(alloc, document, views, buffers)?;
    Ok(Trim { views, lengths })
}
