//! The extensions of objects of which no record keeps them, and whether the document declares them
//! (glTF 2.0, section 3.12): sparse parts of accessors, and channels, targets and samplers of
//! animations. They are found in the JSON value of the file.
#![tactic(auto)]

mod document;
pub mod laws;
mod parts;
pub mod text;
pub mod value;
