//! Laws of attributes. The function's contract is the law, and it needs no body.

ghost use Rattle.std.specs.Prelude.{ℕ, Option};
ghost use Rattle.std.specs.Borrow.{Bor};
ghost use Rattle.gltf_handles.specs.declared.accessor.Accessor.{Accessor};
ghost use Rattle.gltf_json_geometry.specs.declared.semantic.Semantic.{Semantic};
ghost use Rattle.gltf_scene.specs.Attributes.{AttributesLeft, AttributeByNext, NthAttribute};

use gltf_rules::Records;

/// `nth(n)` of attributes gives what the last of n + 1 calls of `next` gives, and leaves what they
/// leave. Of every other list of handles `gltf_handles::laws` says the same.
pub fn nth_attribute_is_next<D: Records>()
    ensures { (old new : AttributesLeft) (n : ℕ)
        (given : Option (Bor Semantic × Accessor D D.Records))
        → AttributeByNext old n given new → NthAttribute old n given new }
{}
