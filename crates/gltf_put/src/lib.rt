//! Files that are written whole or not at all.
#![tactic(auto)]

mod fault;
mod output;
mod place;
mod putting;
mod replacing;
mod standing;

pub use fault::PutFault;
pub use output::Output;
pub use putting::{put, put_all};
pub use replacing::{MEANWHILE, replace_all};
pub use standing::{FileId, Standing, file_at, stays};
