//! What the extensions add to the records.
pub mod scene;
