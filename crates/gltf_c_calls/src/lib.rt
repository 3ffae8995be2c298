//! The calls of the library for C that ask what an open file holds: those that answer with one
//! value, a number or a struct, and those that fill a room of the caller's (`room`).
//!
//! None asks anything of its arguments: what a caller has to keep is what C cannot say in a type,
//! and stands in the header. Each but `count` returns the number of a `Status`, and leaves the file
//! open as it is. A number that is not 0 leaves all as it was: `Closed` of a closed file, and
//! `NoSuchIndex` where nothing has the index, or it has not what is asked for.
//!
//! The crates below are handed on to the exports, and what their contracts cite by
//! `specs/Exported.antt`.
#![tactic(auto)]

mod at;
pub mod bytes;
pub mod extension;
mod given;
pub mod look;
pub mod room;
pub mod scene;

pub use gltf_c_block;
pub use gltf_c_bytes;
pub use gltf_c_extensions;
pub use gltf_c_fault;
pub use gltf_c_handle;
pub use gltf_c_look;
pub use gltf_c_scene;
