//! Integers with whether they are normalized.

use crate::integers::Integers;
use gltf_items::Item;

/// Integers as they are stored, with whether they stand for numbers from 0 to 1 or from -1 to 1.
/// The types of the items are parameters, as those of [`Integers`].
#[derive(Clone, Debug, Drop)]
pub struct Quantized<'s, A: Item, B: Item, C: Item, D: Item> {
    /// The integers, by their type.
    pub integers: Integers<'s, A, B, C, D>,
    /// Whether they are normalized (glTF 2.0, section 3.6.2.2, "Accessor Data Types"). Integers
    /// that are not stand for themselves.
    pub normalized: bool,
}
