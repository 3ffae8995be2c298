//! The jobs that users wait for.

pub mod check;
pub mod convert;
mod imported;
pub mod open;
pub mod read;
pub mod refuse;
pub mod values;
