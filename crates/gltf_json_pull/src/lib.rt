//! Records, read from the tokens of a JSON text in one pass, with no tree of the whole. A reading
//! is right where it gives a record. It may give up anywhere, and the text is then left to
//! `gltf_json_record`, which says what is wrong with it.
#![tactic(auto)]

mod animation;
mod geometry;
mod material;
pub mod pull;
pub mod record;
mod root;
pub mod rows;
mod scene;
pub mod table;
pub mod text;
