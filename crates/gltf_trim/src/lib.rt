//! A document without the views at the end of the list that only images name, and with shorter
//! buffers (glTF 2.0, sections 3.6.1, 3.8.3, 5.10 and 5.11): for a document whose images go into
//! files of their own.
#![tactic(auto)]

mod documents;
mod known;
mod lengths;
mod lists;
mod marks;
mod passed;
mod tails;
mod trim;

pub use documents::trimmed;
pub use trim::{Trim, trim_of};
