//! From the accessors of a valid document and the bytes of its buffers to items, plain and sparse.
#![tactic(auto)]

pub mod accessor;
mod accessor_iter;
mod items;
pub mod laws;
mod part;
mod unreadable;
mod walk;

pub use gltf_handles::{buffer, iter, list};
