//! What the member `extensions` of a record holds: the extensions that are known there, and the
//! others.
pub mod material;
pub mod texture;
