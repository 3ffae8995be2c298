//! Which extensions a document may require (glTF 2.0, section 3.12, "Specifying Extensions"): those
//! that the loader supports, those too that the caller handles, or all, where what an extension
//! says is kept and not read. And what is mended of the document before its records are read.
#![tactic(auto)]

mod checking;
mod file;
pub mod laws;
mod records;
mod required;

pub use checking::checked;
pub use file::{document_as, from_slice_as};
pub use required::Required;
