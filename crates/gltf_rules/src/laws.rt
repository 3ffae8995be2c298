//! Laws of the rules. Each is the contract of a function that does nothing.
ghost use Rattle.std.specs.Prelude.{◌≡◌, ◌↔◌, []};
ghost use Rattle.gltf_json.specs.Documents.{root};
ghost use Rattle.gltf_json.specs.declared.root.Root.{Root};
ghost use Rattle.gltf_validation.specs.Documents.{Faults, counts_of, root_rules};
ghost use Rattle.gltf_validation.specs.Rules.{Hold};

/// Documents that show the same break the same rules, at the same places.
pub fn what_shows_the_same_breaks_the_same_rules()
    ensures { (r s : Root) → root.content r ≡ root.content s → Faults r ≡ Faults s }
{
    gltf_validation::laws::what_shows_the_same_breaks_the_same_rules()
}

/// A document breaks no rule exactly where every condition of its rules is true.
pub fn no_rule_is_broken_where_all_hold()
    ensures { (r : Root) → (Faults r ≡ []) ↔ Hold (root_rules (counts_of r) r) }
{
    gltf_validation::laws::no_rule_is_broken_where_all_hold()
}
