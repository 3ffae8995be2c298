//! Bytes by name: what a loader asks for when a document names bytes that stand outside it.
#![tactic(auto)]

mod failures;
mod folder;
mod inside;
mod links;
mod log;
mod name;
mod outside;
mod own_folder;
mod shelf;
mod slices;

pub use folder::Folder;
pub use inside::Inside;
pub use links::stays_inside;
pub use name::{Name, NamedBytes, NamedFault};
pub use outside::{Outside, leads_outside, outside_of};
pub use own_folder::{OwnFolder, link_error};
pub use shelf::Shelf;
pub use slices::Slices;
