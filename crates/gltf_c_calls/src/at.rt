//! Records by their index.

/// The record of a kind at an index, by the struct that C sees of it.
#[derive(Clone, Copy)]
pub(crate) struct At {
    pub(crate) index: usize,
}
