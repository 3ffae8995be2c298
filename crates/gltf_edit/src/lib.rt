//! Edits of the JSON value of a document: its images go into buffers of their own, its buffers
//! become one, and its views follow (glTF 2.0, sections 3.6.1, 3.8.3, 5.10, 5.11 and 5.18).
#![tactic(auto)]

mod documents;
mod fault;
mod images;
mod members;
mod picture;
mod span;

pub use documents::bundled;
pub use fault::Fault;
pub use images::embedded;
pub use members::{size_at, with_some, without_member};
pub use picture::Picture;
pub use span::Span;
