//! Why a file is refused, as C sees it: the number of a status, and a struct with the place and a
//! message. And texts for C, which end with a zero byte: those of errors, and the JSON of a value.
//! Nothing here has a pointer.
#![tactic(auto)]

pub mod fault;
pub mod json;
pub mod message;
mod pointer;
pub mod status;
