//! The bytes of the buffers of a document: what their URIs hold or name, or the blob, with zeros
//! after them (glTF 2.0, section 3.6.1, "Buffers and Buffer Views").
#![tactic(auto)]

mod asking;
mod data;
pub mod laws;
pub mod payload;
mod reading;
mod reference;
pub mod uri;

pub use asking::{Ask, NoNames};
pub use data::Data;
pub use reading::{read_buffers, read_each_buffer};
pub use reference::bytes_of_uri;
