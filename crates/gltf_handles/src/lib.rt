//! Handles of the buffers, buffer views and accessors of a valid document, and the lists that
//! handles come in. A handle borrows its document: it is made, copied and dropped without memory.
//! `D` is that document: a `Valid`, where no other type is named.
#![tactic(auto)]

pub mod accessor;
pub mod buffer;
pub mod inner;
pub mod iter;
pub mod laws;
pub mod list;
pub mod member;
