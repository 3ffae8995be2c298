//! Members of extension objects that name a buffer or a file (glTF 2.0, section 3.12), by their
//! places in a document. A tool that does not know an extension cannot move what its objects name.
#![tactic(auto)]

mod elsewhere;
mod place;
mod walk;

pub use elsewhere::named_elsewhere;
pub use place::{Place, Step};
