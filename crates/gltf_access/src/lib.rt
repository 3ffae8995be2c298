//! The bytes of accessors, views and images, as a program wants them that hands them on: where they
//! lie, without a copy, or copied one item after the other, also without the padding of small
//! matrices. And why a reader of items read none.
#![tactic(auto)]

pub mod animation;
mod columns;
mod components;
mod flat;
mod item;
pub mod laws;
mod layout;
pub mod mesh;
mod not_read;
mod packed;
mod parts;
mod raw;
pub mod skin;
mod why;
mod write;

pub use components::write_components;
pub use flat::{NotWritten, to_bytes, write_bytes};
pub use layout::padded_size;
pub use not_read::NotRead;
pub use raw::{Bytes, accessor_bytes, image_bytes, view_bytes};
