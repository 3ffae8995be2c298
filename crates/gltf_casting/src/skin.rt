//! What is read of skins (glTF 2.0, section 3.7.3, "Skins"), under the names of the Rust crate.

/// What is read of a skin.
pub mod util {
    use gltf_data::accessor::Iter;
    use gltf_items::F32;

    /// Inverse bind matrices, one for each joint: four columns of four numbers.
    pub type ReadInverseBindMatrices<'a> = Iter<'a, [[F32; 4]; 4]>;
}
