//! Where nothing is found, so that no JSON value need be made. Each law is the contract of a function
//! that does nothing.
ghost use Rattle.std.specs.Prelude.{◌≡◌, ◌∷◌, [], true, codes};
ghost use Rattle.serde_json.specs.Data.{Data};
ghost use Rattle.gltf_json.specs.Documents.{root};
ghost use Rattle.gltf_json.specs.declared.root.Root.{Root};
ghost use Rattle.gltf_json_keys.specs.Keys.{Lacks, PartsLack};
ghost use Rattle.gltf_inspect_unkept.specs.Laws.{FindsNothing, has_none, none_is_sparse};

use gltf_json::root::Root;
use gltf_json_geometry::accessor::Accessor;

/// Whether a document has neither an animation nor an accessor with a sparse part.
pub fn has_none(root: &Root) -> bool
    ensures { result ≡ has_none root.now }
{
    root.animations.is_empty() && none_is_sparse(&root.accessors)
}

fn none_is_sparse(accessors: &[Accessor]) -> bool
    ensures { result ≡ none_is_sparse accessors.now }
{
    for accessor in accessors {
        if accessor.sparse.is_some() {
            return false;
        }
    }
    true
}

/// In the value of such a document nothing is found.
pub fn nothing_is_found_where_there_is_none()
    ensures { (d : Data) (r : Root) → root.is d r → has_none r ≡ true → FindsNothing d }
{}

/// In a value without a member `extensions`, however deep, nothing is found.
pub fn nothing_is_found_without_the_name()
    ensures { (d : Data) → Lacks (codes "extensions") d → FindsNothing d }
{}

/// Nor in one whose accessors and animations have no such member, wherever else there are some.
pub fn nothing_is_found_where_its_parts_lack_the_name()
    ensures { (d : Data) → PartsLack (codes "accessors" ∷ codes "animations" ∷ [])
        (codes "extensions") d → FindsNothing d }
{}
