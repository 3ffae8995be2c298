//! Laws of loops among nodes, and of joints and skeletons where there is none. Each is the contract
//! of a function that does nothing.
ghost use Rattle.std.specs.Prelude.{List, Some, [], ◌∷◌, ◌≡◌, ◌↔◌, ◌≤◌, ◌<◌};
ghost use Rattle.std.specs.Prelude.{ℕ, suc, length, codes, nat_eq, true};
ghost use Rattle.std.specs.List.{Contains, list_any};
ghost use Rattle.gltf_json.specs.declared.root.Root.{Root};
ghost use Rattle.gltf_json_record.specs.Place.{Place, named, numbered};
ghost use Rattle.gltf_findings.specs.declared.code.Code.TheVariants.{NodeLoop, SkinNoCommonRoot};
ghost use Rattle.gltf_findings.specs.declared.code.Code.TheVariants.{SkinSkeletonInvalid};
ghost use Rattle.gltf_findings.specs.Checks.{findings_of};
ghost use Rattle.gltf_inspect_nodes.specs.Roots.{roots_checks};
ghost use Rattle.gltf_inspect_nodes.specs.Named.{joints_of};
ghost use Rattle.gltf_json_scene.specs.declared.skin.Skin.{Skin};
ghost use Rattle.gltf_inspect_trees.specs.Skeletons.{skeletons_checks};
ghost use Rattle.gltf_inspect_loops.specs.Ancestors.{IsAncestor, AreApart, HasNoLoop, skin_at};
ghost use Rattle.gltf_inspect_loops.specs.Ancestors.{HasJointElsewhere};

/// In a document of no more than 2^64 nodes, a node is found to be on a loop exactly where it is
/// among its own ancestors.
pub fn a_loop_is_found_exactly_at_nodes_above_themselves()
    ensures { (r : Root) (path : List Place) → length r.nodes.items ≤ 18446744073709551616
        → Contains (findings_of [] (roots_checks r)) (path, NodeLoop)
        ↔ (i : ℕ) × (path ≡ named (codes "nodes") ∷ numbered i ∷ [])
        × (n : ℕ) × IsAncestor r.nodes.items (suc n) i i }
{
    gltf_findings::laws::a_finding_is_a_condition_that_fails()
}

/// In a document of no more than 2^64 nodes, where none is among its own ancestors, joints are
/// found to have no common root exactly where two of them have no node above both, be it one of
/// them.
pub fn joints_are_found_exactly_where_two_are_apart()
    ensures { (r : Root) (path : List Place) → length r.nodes.items ≤ 18446744073709551616
        → HasNoLoop r.nodes.items
        → Contains (findings_of [] (roots_checks r)) (path, SkinNoCommonRoot)
        ↔ (i : ℕ) × (skin : Skin)
        × (path ≡ named (codes "skins") ∷ numbered i ∷ named (codes "joints") ∷ [])
        × (skin_at r.skins.items i ≡ Some skin) × AreApart r.nodes.items (joints_of skin) }
{
    gltf_findings::laws::a_finding_is_a_condition_that_fails()
}

/// Joints of which one is a node that has an ancestor, or is one, that is among its own ancestors
/// are not found to have no common root, however long the loop is.
pub fn of_joints_that_lead_to_a_loop_nothing_is_found()
    ensures { (r : Root) (i joint above n m : ℕ) (skin : Skin)
        → skin_at r.skins.items i ≡ Some skin
        → list_any (nat_eq joint) (joints_of skin) ≡ true → joint < length r.nodes.items
        → IsAncestor r.nodes.items n above joint → IsAncestor r.nodes.items (suc m) above above
        → ¬ Contains (findings_of [] (roots_checks r))
        (named (codes "skins") ∷ numbered i ∷ named (codes "joints") ∷ [], SkinNoCommonRoot) }
{
    gltf_findings::laws::a_finding_is_a_condition_that_fails()
}

/// In a document of no more than 2^64 nodes, where none is among its own ancestors, a skeleton is
/// found to be invalid exactly where it is a node and some joint that is a node is neither this
/// node nor below it.
pub fn a_skeleton_is_found_exactly_where_a_joint_is_not_below_it()
    ensures { (r : Root) (path : List Place) → length r.nodes.items ≤ 18446744073709551616
        → HasNoLoop r.nodes.items
        → Contains (findings_of [] (skeletons_checks r)) (path, SkinSkeletonInvalid)
        ↔ (i : ℕ) × (skin : Skin)
        × (path ≡ named (codes "skins") ∷ numbered i ∷ named (codes "skeleton") ∷ [])
        × (skin_at r.skins.items i ≡ Some skin) × HasJointElsewhere r.nodes.items skin }
{
    gltf_findings::laws::a_finding_is_a_condition_that_fails()
}
