//! Buffers and images in files of their own: the names of the files, the URIs that lead to them,
//! and the JSON value of the document that names them (glTF 2.0, sections 2.8, 5.10 and 5.18).
#![tactic(auto)]

mod documents;
mod naming;
mod owner;
mod part;

pub use documents::detached;
pub use naming::{ESCAPED, buffer_name, ending_of, image_name};
pub use owner::Owner;
pub use part::Part;
