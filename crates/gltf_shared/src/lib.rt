//! Buffers that share the bytes of the files that they name: each name is asked for once (glTF 2.0,
//! sections 2.8 and 3.6.1).
#![tactic(auto)]

mod asking;
mod bounded;
mod held;
mod lending;
mod lengths;
mod reading;
mod regular;

pub use asking::AskUpTo;
pub use lending::{lent, slices};
pub use lengths::shared_len;
pub use reading::{read_each_shared, read_shared};
pub use regular::RegularFolder;
