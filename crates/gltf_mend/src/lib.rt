//! Documents that are mended before their records are read: what an extension says stands where the
//! format asks for something, and what is to be ignored or has no meaning is left out (glTF 2.0,
//! sections 3.7.2.1, 3.12, 5.7.1 and 5.29). The edits are those of a document's JSON value.
#![tactic(auto)]

mod attributes;
mod channels;
mod edit;
mod mends;
mod textures;

pub use mends::{Mends, mended};
