//! Lines of text that describe the handles of a document: all that the getters of each give, after
//! their names, what steps over a list of handles give, and what readers give. `gltf_cases` prints
//! them.
#![tactic(auto)]

mod animations;
mod buffers;
mod casts;
mod line;
mod list;
mod looks;
mod materials;
mod meshes;
mod reads;
mod scenes;
mod shown;

pub use casts::{write_channel_casts, write_primitive_casts};
pub use line::{Line, Written};
pub use list::{write_list, write_list_or_none};
pub use meshes::write_attribute_steps;
pub use reads::{write_channel, write_primitive, write_skin};
pub use shown::{Shown, write_handle};
