//! Walks over the items of an accessor, by a list of steps.

mod run;

use gltf_items::Count;
pub use run::{walk, walk_on};

/// A step of a walk.
#[derive(Clone, Copy, Debug)]
pub enum Step {
    /// The next item.
    Next,
    /// So many items are passed over, and the next one is given.
    Nth(usize),
    /// How many items are left.
    Len,
}

/// The end of a walk.
#[derive(Clone, Copy, Debug)]
pub enum End {
    /// The last item that is left.
    Last,
    /// How many items are left.
    Count,
    /// Nothing more.
    Stop,
}

/// What a step gives.
#[derive(Debug, Drop)]
pub enum Answer<T> {
    /// An item; None past the end.
    Item(Option<T>),
    /// How many items were left.
    Length(usize),
}

/// What the end gives.
#[derive(Debug, Drop)]
pub enum Ended<T> {
    /// The last item; None where none was left.
    Last(Option<T>),
    /// How many items were left.
    Count(usize),
    /// Nothing.
    Stopped,
}

/// What a walk gives. Its three counts are seen by contracts alone and take no bytes.
#[derive(Debug, Drop)]
pub struct Walked<T> {
    /// The answers of the steps, in order.
    pub answers: Vec<Answer<T>>,
    /// The answer of the end.
    pub ended: Ended<T>,
    /// How many stored indices the walk read.
    pub index_reads: Count,
    /// How many items of a sparse accessor's base it read.
    pub base_reads: Count,
    /// How many values of a sparse accessor it read.
    pub value_reads: Count,
}
