//! The layouts of a report: text, JSON and a page of HTML, each with tables of what the file holds.
#![tactic(auto)]

pub mod json;
pub mod laws;
mod layout;
pub mod page;
mod picture;
mod primitives;
pub mod printable;
mod shapes;
mod shown;
mod table;
mod tables;
pub mod text;
