//! The records of a document that breaks no rule, each with the fact that its rules hold.
ghost use Rattle.std.specs.Prelude.{◌≡◌};

use crate::kind::Kind;
use crate::lists::element;
use crate::valid::Valid;
use gltf_validation::validate::Validate;

/// What has the records of such a document. Handles are over any of these, so that the prover,
/// where it looks at a handle, does not see the document that a `Valid` is.
pub trait Records {
    ghost use Rattle.std.specs.Prelude.{◌≡◌, ◌<◌, length, slice_get, Some};
    ghost use Rattle.gltf_json.specs.declared.root.Root.{Root};
    ghost use Rattle.gltf_validation.specs.Documents.{counts_of};
    ghost use Rattle.gltf_validation.specs.Members.{list_rules};
    ghost use Rattle.gltf_validation.specs.Rules.{Hold};

    /// The root of the document.
    ghost root: { Self → Root };

    /// How many records the list has that `K` names.
    fn len<K: Kind>(&self) -> usize
        ensures { result ≡ length (K.list (root self.now)) };

    /// The record at an index of the list that `K` names.
    fn get<K: Kind>(&self, index: usize) -> &K::Record
        requires { index < length (K.list (root self.now)) }
        ensures at { slice_get (K.list (root self.now)) index ≡ Some result.now }
        ensures hold { Hold (K.record_rules (counts_of (root self.now)) result.now) };

    /// The element at an index of a list whose rules hold.
    fn element<'l, T: Validate>(&self, list: &'l [T], index: usize) -> &'l T
        requires within { index < length list.now }
        requires hold { Hold (list_rules (T.rules (counts_of (root self.now))) list.now) }
        ensures at { slice_get list.now index ≡ Some result.now }
        ensures hold { Hold (T.rules (counts_of (root self.now)) result.now) };
}

impl Records for Valid {
    ghost root = { λ r. r };

    fn len<K: Kind>(&self) -> usize {
        K::list(self.as_root()).len()
    }

    fn get<K: Kind>(&self, index: usize) -> &K::Record {
        let root = self.as_root();
        let list = K::list(root);
        &list[index]
    }

    fn element<'l, T: Validate>(&self, list: &'l [T], index: usize) -> &'l T {
        element(list, index)
    }
}
