//! Documents that break no rule.
ghost use Rattle.std.specs.Prelude.{◌≡◌, [], IfOk, IfErr, OnOk};
ghost use Rattle.gltf_validation.specs.Documents.{Faults, counts_of, root_rules};
ghost use Rattle.gltf_validation.specs.Rules.{Hold};

use crate::laws::{no_rule_is_broken_where_all_hold, what_shows_the_same_breaks_the_same_rules};
use gltf_json::path::Path;
use gltf_json::root::Root;
use gltf_validation::counts::Counts;
use gltf_validation::error::Error;
use gltf_validation::validate::faults_of;
use std::alloc::{AllocError, Global};
use std::marker::Model;

/// Every broken rule of a document with the path of the member that breaks it, in the order of the
/// document's members. Memory is taken only for broken rules.
#[tactic(auto, unfolding(gltf_validation::specs::Documents::Faults))]
pub fn validate(alloc: Global, root: &Root) -> Result<Vec<(Path, Error)>, AllocError>
    ensures { IfOk result (λ faults. faults.items ≡ Faults root.now) }
{
    faults_of(alloc, root, &Counts::of(root))
}

/// Why a document is refused.
#[derive(Debug, Drop)]
pub enum Refused {
    /// It breaks these rules: all that it breaks, in order.
    Rules(Vec<(Path, Error)>),
    /// There was not enough memory.
    Memory,
}

impl From<AllocError> for Refused {
    ghost use Rattle.gltf_rules.specs.declared.valid.Refused.TheVariants.{Memory};

    ghost from_gives = { λ _ refused. refused ≡ Memory };

    fn from(_cause: AllocError) -> Refused {
        Refused::Memory
    }
}

/// A document that breaks no rule. Contracts see its root, and no call changes it.
#[derive(Debug, Drop)]
pub struct Valid {
    root: Root,
}

impl Model for Valid {
    ghost use Rattle.gltf_json.specs.declared.root.Root.{Root};
    ghost use Rattle.gltf_json.specs.contracts.root.Root as root_type;
    ghost use Rattle.gltf_validation.specs.Documents.{counts_of, root_rules};
    ghost use Rattle.gltf_validation.specs.Rules.{Hold};

    ghost Value = { Root };

    ghost coded = { root_type.the_row.coded };

    ghost view = { λ v. v.root };

    ghost invariant = { λ v. Hold (root_rules (counts_of v.root) v.root) };
}

impl Valid {
    ghost use Rattle.gltf_json.specs.Documents.{root as root_kind};
    ghost use Rattle.gltf_json_record.specs.Copy.{IsCopy};
    ghost use Rattle.gltf_rules.specs.Refusals.{IsRefusal};

    /// The document, where it breaks no rule; else all that it breaks, in order.
    pub fn new(alloc: Global, root: Root) -> Result<Valid, Refused>
        ensures same { IfOk result (λ valid. valid ≡ root) }
        ensures valid { OnOk result (Faults root ≡ []) }
        ensures refused { IfErr result (IsRefusal root) }
    {
        // A law that the proof stands on; the call does nothing.
        no_rule_is_broken_where_all_hold();
        let faults = validate(alloc, &root)?;
        if faults.is_empty() {
            Ok(Valid { root })
        } else {
            Err(Refused::Rules(faults))
        }
    }

    /// A copy of the document. It shows what this one shows, and so breaks no rule either.
    pub fn clone(&self, alloc: Global) -> Result<Valid, AllocError>
        ensures { IfOk result (IsCopy root_kind self.now) }
    {
        // Laws that the proof stands on; the calls do nothing.
        what_shows_the_same_breaks_the_same_rules();
        no_rule_is_broken_where_all_hold();
        let root = self.as_root().clone(alloc)?;
        Ok(Valid { root })
    }

    /// The document.
    pub fn as_root(&self) -> &Root
        ensures same { result.now ≡ self.now }
        ensures hold { Hold (root_rules (counts_of self.now) self.now) }
    {
        &self.root
    }

    /// The document, moved out.
    pub fn into_root(self) -> Root
        ensures same { result ≡ self }
        ensures valid { Faults self ≡ [] }
    {
        // A law that the proof stands on; the call does nothing.
        no_rule_is_broken_where_all_hold();
        let Valid { root } = self;
        root
    }
}
