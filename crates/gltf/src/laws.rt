//! Laws of files, and of readers over them: what is read of an imported file depends on its bytes
//! alone. Each law is the contract of a function; the calls in a body are laws that its proof
//! stands on, and do nothing.
//!
//! What a reader answers over a closure follows from the closure's answers (`gltf_read::laws`). A
//! law here starts from one import of some bytes, as [`crate::import_slice`] returns it, and what
//! a reader gives of its document over its buffers. The same is then given of every document and
//! buffers that these bytes are: of the same accessor, as the same variant, and with the same
//! items.

ghost use Rattle.std.specs.Prelude.{ℕ};
ghost use Rattle.std.specs.Option.{option_and_then};
ghost use Rattle.gltf_json_geometry.specs.declared.semantic.Semantic.TheVariants as attributes;
ghost use Rattle.gltf_read.specs.Colors.{AreColors};
ghost use Rattle.gltf_read.specs.Indices.{AreIndices};
ghost use Rattle.gltf_read.specs.Joints.{AreJoints};
ghost use Rattle.gltf_read.specs.Kinds.{OfKind, three_floats, indices};
ghost use Rattle.gltf_read.specs.Members.{attribute_at, indices_at, displacements_at, matrices_at};
ghost use Rattle.gltf_read.specs.Members.{input_at, output_at, property_at};
ghost use Rattle.gltf_read.specs.Outputs.{AreOutputs};
ghost use Rattle.gltf_read.specs.Reading.{AreItems};
ghost use Rattle.gltf_read.specs.TexCoords.{AreTexCoords};
ghost use Rattle.gltf_read.specs.Weights.{AreWeights};
ghost use Rattle.gltf.specs.Laws.{OneTextAndBlob};
ghost use Rattle.gltf.specs.OfBytes.{IsOfBytes};

use gltf_glb::laws::one_reading;
use gltf_items::{F32, Item};
use gltf_json::laws::what_shows_the_same_is_alike_in_each_member;
use gltf_read::laws::{
    colors_are_alike, indices_are_alike, items_are_alike, joints_are_alike, outputs_are_alike,
    readings_of_one_value_have_the_same_indices, tex_coords_are_alike, typed_indices_are_alike,
    typed_items_are_alike, weights_are_alike,
};

/// The bytes of a file have one JSON text, and one blob at most.
pub fn one_text_and_blob()
    ensures { OneTextAndBlob }
{
    one_reading();
}

/// What is read of primitive p of mesh m.
pub fn primitives_are_of_the_bytes()
    ensures positions { (m p : ℕ) → IsOfBytes (λ r. AreItems {t = ⟦<[F32; 3] as Item>⟧})
        (λ r. attribute_at r m p attributes.Positions) }
    ensures normals { (m p : ℕ) → IsOfBytes (λ r. AreItems {t = ⟦<[F32; 3] as Item>⟧})
        (λ r. attribute_at r m p attributes.Normals) }
    ensures tangents { (m p : ℕ) → IsOfBytes (λ r. AreItems {t = ⟦<[F32; 4] as Item>⟧})
        (λ r. attribute_at r m p attributes.Tangents) }
    ensures colors { (m p set : ℕ) → IsOfBytes (λ r. AreColors)
        (λ r. attribute_at r m p (attributes.Colors set)) }
    ensures indices { (m p : ℕ) → IsOfBytes (λ r. AreIndices) (λ r. indices_at r m p) }
    ensures joints { (m p set : ℕ) → IsOfBytes (λ r. AreJoints)
        (λ r. attribute_at r m p (attributes.Joints set)) }
    ensures tex_coords { (m p set : ℕ) → IsOfBytes (λ r. AreTexCoords)
        (λ r. attribute_at r m p (attributes.TexCoords set)) }
    ensures weights { (m p set : ℕ) → IsOfBytes (λ r. AreWeights)
        (λ r. attribute_at r m p (attributes.Weights set)) }
{
    one_reading();
    what_shows_the_same_is_alike_in_each_member();
    readings_of_one_value_have_the_same_indices();
    items_are_alike::<[F32; 3]>();
    items_are_alike::<[F32; 4]>();
    colors_are_alike();
    indices_are_alike();
    joints_are_alike();
    tex_coords_are_alike();
    weights_are_alike();
}

/// The same of positions and indices of the types that the standard has for them.
pub fn typed_primitives_are_of_the_bytes()
    ensures positions { (m p : ℕ)
        → IsOfBytes (λ r. OfKind three_floats (AreItems {t = ⟦<[F32; 3] as Item>⟧}))
        (λ r. attribute_at r m p attributes.Positions) }
    ensures indices { (m p : ℕ) → IsOfBytes (λ r. OfKind indices AreIndices)
        (λ r. indices_at r m p) }
{
    one_reading();
    what_shows_the_same_is_alike_in_each_member();
    readings_of_one_value_have_the_same_indices();
    typed_items_are_alike::<[F32; 3]>();
    typed_indices_are_alike();
}

/// What is read of morph target t of primitive p of mesh m.
pub fn morph_targets_are_of_the_bytes()
    ensures positions { (m p t : ℕ) → IsOfBytes (λ r. AreItems {t = ⟦<[F32; 3] as Item>⟧})
        (λ r. option_and_then (λ d. d.0) (displacements_at r m p t)) }
    ensures normals { (m p t : ℕ) → IsOfBytes (λ r. AreItems {t = ⟦<[F32; 3] as Item>⟧})
        (λ r. option_and_then (λ d. d.1) (displacements_at r m p t)) }
    ensures tangents { (m p t : ℕ) → IsOfBytes (λ r. AreItems {t = ⟦<[F32; 3] as Item>⟧})
        (λ r. option_and_then (λ d. d.2) (displacements_at r m p t)) }
{
    one_reading();
    what_shows_the_same_is_alike_in_each_member();
    readings_of_one_value_have_the_same_indices();
    items_are_alike::<[F32; 3]>();
}

/// What is read of skin k.
pub fn skins_are_of_the_bytes()
    ensures { (k : ℕ) → IsOfBytes (λ r. AreItems {t = ⟦<[[F32; 4]; 4] as Item>⟧})
        (λ r. matrices_at r k) }
{
    one_reading();
    what_shows_the_same_is_alike_in_each_member();
    readings_of_one_value_have_the_same_indices();
    items_are_alike::<[[F32; 4]; 4]>();
}

/// What is read of channel c of animation a.
pub fn channels_are_of_the_bytes()
    ensures inputs { (a c : ℕ) → IsOfBytes (λ r. AreItems {t = ⟦<F32 as Item>⟧})
        (λ r. input_at r a c) }
    ensures outputs { (a c : ℕ) → IsOfBytes (λ r. AreOutputs (property_at r a c))
        (λ r. output_at r a c) }
{
    one_reading();
    what_shows_the_same_is_alike_in_each_member();
    readings_of_one_value_have_the_same_indices();
    items_are_alike::<F32>();
    outputs_are_alike();
}
