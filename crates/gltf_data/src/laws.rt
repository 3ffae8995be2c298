//! Laws of the definitions that the contracts of this crate name. The function's contract is the
//! law, and it needs no body.

ghost use Rattle.std.specs.Prelude.{ℕ, List, Option};
ghost use Rattle.gltf_json.specs.Alike.{AreAlikeInEachMember};
ghost use Rattle.gltf_json.specs.declared.root.Root.{Root};
ghost use Rattle.gltf_data.specs.Documents.{ReadsAt};

use gltf_items::Item;

/// Documents that show the same have the same items at each accessor, by the same answers for their
/// buffers: how records lie in memory plays no part.
pub fn alike_documents_are_read_alike<T: Item>()
    ensures { (r s : Root) → AreAlikeInEachMember r s
        → (answer : ℕ → Option (List ℕ)) (index : ℕ) (result : Option (List T))
        → ReadsAt ⟦<T as Item>⟧ r answer index result
        → ReadsAt ⟦<T as Item>⟧ s answer index result }
{}
