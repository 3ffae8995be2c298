//! What holds of the names and the order of attributes. Each law is the contract of a function.
ghost use Rattle.std.specs.Prelude.{◌≡◌, ◌↔◌, List, ℕ, IsTrue};
ghost use Rattle.std.specs.Cmp.{IsTotalOrder};
ghost use Rattle.std.specs.declared.cmp.Ordering.TheVariants.{Equal};
ghost use Rattle.gltf_json_geometry.specs.declared.semantic.Semantic.{Semantic};
ghost use Rattle.gltf_json_geometry.specs.Semantics.{Names, order_key, semantic_cmp};

use crate::semantic::Semantic;

/// The order of attributes is total.
pub fn order_is_total()
    ensures { IsTotalOrder semantic_cmp }
{}

/// The order that `Ord` has for attributes is the stated one: maps of attributes are in this order.
pub fn order_is_the_stated_one()
    ensures { ⟦<Semantic as Ord>⟧.cmp ≡ semantic_cmp }
{}

/// Two attributes are equal exactly where neither stands before the other.
pub fn equality_agrees_with_order(left: &Semantic, right: &Semantic) -> bool
    ensures { IsTrue result ↔ (semantic_cmp left.now right.now ≡ Equal) }
{
    left == right
}

/// A name in JSON is that of one attribute at most.
pub fn one_attribute_has_a_name()
    ensures { (s t : Semantic) (name : List ℕ) → Names s name → Names t name
        → order_key s ≡ order_key t }
{}
