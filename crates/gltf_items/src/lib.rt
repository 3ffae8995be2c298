//! The items of accessors, read out of bytes: plain ones at the steps of a stride, and sparse ones,
//! with values in place of some items of a base.
#![tactic(auto)]

mod count;
mod cursor;
mod indices;
mod item;
mod item_iter;
pub mod laws;
mod sparse;
mod stored;

pub use count::Count;
pub use indices::SparseIndicesIter;
pub use item::{F32, Item, floats};
pub use item_iter::ItemIter;
pub use sparse::SparseIter;
