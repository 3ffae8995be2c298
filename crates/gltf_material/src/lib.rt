//! Materials and their parts as handles of a valid document: the uses of textures, the models of
//! colour and reflection, and the materials of variants. A handle borrows its document: it is made,
//! copied and dropped without memory.
#![tactic(auto)]

pub mod iter;
pub mod khr_materials_variants;
pub mod material;
pub mod texture;
