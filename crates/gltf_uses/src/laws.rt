//! Laws of the definition of who uses what. Each function's contract is the law, and needs no body.
ghost use Rattle.std.specs.Prelude.{◌≡◌, ◌+◌, ℕ, []};
ghost use Rattle.gltf_json.specs.declared.root.Root.{Root};
ghost use Rattle.gltf_validation.specs.declared.counts.Counts.{Counts};
ghost use Rattle.gltf_validation.specs.Documents.{root_rules};
ghost use Rattle.gltf_uses.specs.declared.kind.Kind.{Kind};
ghost use Rattle.gltf_uses.specs.Lengths.{with_length};
ghost use Rattle.gltf_uses.specs.References.{references_of};

/// Where no member names an element, no rule of the document depends on whether the list ends
/// before that element or after it, whatever the lengths of the other lists. So there is no member
/// that the rules take for an index of this element and that `references` leaves out.
pub fn no_rule_is_about_what_no_member_names()
    ensures { (r : Root) (c : Counts) (kind : Kind) (i : ℕ) → references_of r kind i ≡ []
        → root_rules (with_length kind i c) r ≡ root_rules (with_length kind (i + 1) c) r }
{}
