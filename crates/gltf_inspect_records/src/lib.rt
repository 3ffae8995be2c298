//! What the standard forbids in each record of a document by itself, and in what it names.
#![tactic(auto)]

mod accessor;
mod animation;
mod attributes;
mod camera;
mod list;
mod material;
mod mesh;
mod number;
pub mod records;
mod scene;
mod variants;
mod view;
