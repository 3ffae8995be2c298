//! Who uses what in a document: which members name an element of a list, and which elements no
//! member names.
#![tactic(auto)]

mod animation;
mod geometry;
mod kind;
pub mod laws;
mod material;
mod material_textures;
mod root;
mod scene;
mod sink;
mod usage;
mod uses;
mod visit;

pub use kind::Kind;
pub use material_textures::{Slot, TextureUse, textures};
pub use usage::Usage;
pub use uses::{references, unused};
