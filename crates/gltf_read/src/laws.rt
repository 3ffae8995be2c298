//! Laws of what readers read. Each law is the contract of a function; the calls in a body are laws
//! that its proof stands on, and do nothing.

ghost use Rattle.std.specs.Prelude.{Option};
ghost use Rattle.serde_json.specs.Data.{Data};
ghost use Rattle.gltf_json.specs.Documents.{root};
ghost use Rattle.gltf_json.specs.declared.root.Root.{Root};
ghost use Rattle.gltf_json_animation.specs.declared.animation.Property.{Property};
ghost use Rattle.gltf_read.specs.Colors.{AreColors};
ghost use Rattle.gltf_read.specs.Indices.{AreIndices};
ghost use Rattle.gltf_read.specs.Joints.{AreJoints};
ghost use Rattle.gltf_read.specs.Kinds.{Kinds, OfKind};
ghost use Rattle.gltf_read.specs.Laws.{IsByAnswers, IsAlike, IsRepeatedNext};
ghost use Rattle.gltf_read.specs.Members.{HaveSameIndices};
ghost use Rattle.gltf_read.specs.MorphTargets.{GivesTarget};
ghost use Rattle.gltf_read.specs.Outputs.{AreOutputs};
ghost use Rattle.gltf_read.specs.Reading.{AreItems};
ghost use Rattle.gltf_read.specs.TexCoords.{AreTexCoords};
ghost use Rattle.gltf_read.specs.Weights.{AreWeights};

use gltf_data::buffer::Buffer;
use gltf_data::laws::alike_documents_are_read_alike;
use gltf_items::{F32, Item};

/// The items that are read by a closure which answers one buffer always alike are determined by
/// these answers.
pub fn items_are_by_answers<'s, T: Item, F: Fn(Buffer) -> Option<&'s [u8]>>(get_buffer_data: &F)
    ensures { IsByAnswers (AreItems {X = T} {t = ⟦<T as Item>⟧})
        (λ b o. F.post get_buffer_data.now b o) }
{}

/// So is what is read by the tables.
pub fn tables_are_by_answers<'s, F: Fn(Buffer) -> Option<&'s [u8]>>(get_buffer_data: &F)
    ensures colors { IsByAnswers AreColors (λ b o. F.post get_buffer_data.now b o) }
    ensures indices { IsByAnswers AreIndices (λ b o. F.post get_buffer_data.now b o) }
    ensures joints { IsByAnswers AreJoints (λ b o. F.post get_buffer_data.now b o) }
    ensures tex_coords { IsByAnswers AreTexCoords (λ b o. F.post get_buffer_data.now b o) }
    ensures weights { IsByAnswers AreWeights (λ b o. F.post get_buffer_data.now b o) }
    ensures outputs { (property : Option Property)
        → IsByAnswers (AreOutputs property) (λ b o. F.post get_buffer_data.now b o) }
{}

/// So is what is read of items of a type that the standard has for them.
pub fn typed_items_are_by_answers<'s, T: Item, F: Fn(Buffer) -> Option<&'s [u8]>>(
    get_buffer_data: &F,
)
    ensures { (kinds : Kinds) → IsByAnswers (OfKind kinds (AreItems {X = T} {t = ⟦<T as Item>⟧}))
        (λ b o. F.post get_buffer_data.now b o) }
{}

/// So are indices of such a type.
pub fn typed_indices_are_by_answers<'s, F: Fn(Buffer) -> Option<&'s [u8]>>(get_buffer_data: &F)
    ensures { (kinds : Kinds) → IsByAnswers (OfKind kinds AreIndices)
        (λ b o. F.post get_buffer_data.now b o) }
{}

/// `nth(n)` on the morph targets of a primitive reads what the last of n + 1 calls of `next` reads,
/// and leaves what they leave.
pub fn nth_target_is_next<'s, T: Item, F: Fn(Buffer) -> Option<&'s [u8]>>(get_buffer_data: &F)
    ensures { IsRepeatedNext (GivesTarget {X = T} {t = ⟦<T as Item>⟧}
        (λ b o. F.post get_buffer_data.now b o)) }
{}

/// Documents that show the same have the same items, by the same answers for their buffers.
pub fn items_are_alike<T: Item>()
    ensures { IsAlike (AreItems {X = T} {t = ⟦<T as Item>⟧}) }
{
    alike_documents_are_read_alike::<T>();
}

/// They have the same items of a type that the standard has for them.
pub fn typed_items_are_alike<T: Item>()
    ensures { (kinds : Kinds) → IsAlike (OfKind kinds (AreItems {X = T} {t = ⟦<T as Item>⟧})) }
{
    alike_documents_are_read_alike::<T>();
}

/// They have the same colours.
pub fn colors_are_alike()
    ensures { IsAlike AreColors }
{
    alike_documents_are_read_alike::<[u8; 3]>();
    alike_documents_are_read_alike::<[u16; 3]>();
    alike_documents_are_read_alike::<[F32; 3]>();
    alike_documents_are_read_alike::<[u8; 4]>();
    alike_documents_are_read_alike::<[u16; 4]>();
    alike_documents_are_read_alike::<[F32; 4]>();
}

/// They have the same indices.
pub fn indices_are_alike()
    ensures { IsAlike AreIndices }
{
    alike_documents_are_read_alike::<u8>();
    alike_documents_are_read_alike::<u16>();
    alike_documents_are_read_alike::<u32>();
}

/// They have the same indices of such a type.
pub fn typed_indices_are_alike()
    ensures { (kinds : Kinds) → IsAlike (OfKind kinds AreIndices) }
{
    alike_documents_are_read_alike::<u8>();
    alike_documents_are_read_alike::<u16>();
    alike_documents_are_read_alike::<u32>();
}

/// They have the same joints.
pub fn joints_are_alike()
    ensures { IsAlike AreJoints }
{
    alike_documents_are_read_alike::<[u8; 4]>();
    alike_documents_are_read_alike::<[u16; 4]>();
}

/// They have the same texture coordinates.
pub fn tex_coords_are_alike()
    ensures { IsAlike AreTexCoords }
{
    alike_documents_are_read_alike::<[u8; 2]>();
    alike_documents_are_read_alike::<[u16; 2]>();
    alike_documents_are_read_alike::<[F32; 2]>();
}

/// They have the same weights of joints.
pub fn weights_are_alike()
    ensures { IsAlike AreWeights }
{
    alike_documents_are_read_alike::<[u8; 4]>();
    alike_documents_are_read_alike::<[u16; 4]>();
    alike_documents_are_read_alike::<[F32; 4]>();
}

/// They have the same keyframes, by what is animated.
pub fn outputs_are_alike()
    ensures { (property : Option Property) → IsAlike (AreOutputs property) }
{
    alike_documents_are_read_alike::<[F32; 3]>();
    alike_documents_are_read_alike::<[i8; 4]>();
    alike_documents_are_read_alike::<[u8; 4]>();
    alike_documents_are_read_alike::<[i16; 4]>();
    alike_documents_are_read_alike::<[u16; 4]>();
    alike_documents_are_read_alike::<[F32; 4]>();
    alike_documents_are_read_alike::<i8>();
    alike_documents_are_read_alike::<u8>();
    alike_documents_are_read_alike::<i16>();
    alike_documents_are_read_alike::<u16>();
    alike_documents_are_read_alike::<F32>();
}

/// Documents that are readings of one JSON value have the same indices for what readers read.
pub fn readings_of_one_value_have_the_same_indices()
    ensures { (d : Data) (r s : Root) → root.is d r → root.is d s → HaveSameIndices r s }
{}
