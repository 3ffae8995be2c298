//! What a document leaves to its extensions, and the loader needs.
//!
//! Buffers may have no bytes: those of views that are compressed, for readers that do not know the
//! compression (`EXT_meshopt_compression` and `KHR_meshopt_compression`, "Fallback Buffers"). What
//! edits a document moves the bytes that are there: so a view becomes what it is compressed to
//! ([`lifted`]), and after the edit what it was ([`lowered`], [`with_bare`]).
//!
//! A texture may have no source, and a channel's target no node. For an edit they get some
//! ([`filled`]), and are what they were behind it ([`emptied`]).
#![tactic(auto)]

mod bare;
mod edit;
mod lifting;
mod lowering;
mod records;

/// The member in which [`lifted`] and [`filled`] keep what a record was.
pub const OWN: &str = "gltf_fallback";

pub use bare::is_bare;
pub use lifting::lifted;
pub use lowering::{lowered, with_bare};
pub use records::{emptied, filled};
