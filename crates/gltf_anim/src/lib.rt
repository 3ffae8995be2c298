//! Animations, their channels and samplers as handles of a valid document, and their lists. A
//! handle borrows its document: it is made, copied and dropped without memory, and no getter takes
//! memory or can fail.
#![tactic(auto)]

pub mod animation;
pub mod iter;
