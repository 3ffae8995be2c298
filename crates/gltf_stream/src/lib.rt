//! Bytes that readers give and writers take. A call that fails, for whatever cause, is not tried
//! again, and memory grows with the bytes that came.
#![tactic(auto)]

mod reading;
mod writing;

pub use reading::{PIECE, ReadFault, read_to_end, read_up_to};
pub use writing::write_pieces;
