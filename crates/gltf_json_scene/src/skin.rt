//! Skins (glTF 2.0, section 3.7.3, "Skins").
ghost use Rattle.std.specs.Prelude.{IfOk};
ghost use Rattle.gltf_json_record.specs.Copy.{IsCopy};

use gltf_json_record::boxed::Boxed;
use gltf_json_record::copy::Copies;
use gltf_json_record::error::Error;
use gltf_json_record::extensions::Others;
use gltf_json_record::extras::Extras;
use gltf_json_record::index::Index;
use gltf_json_record::lent::{Maybe, Member};
use gltf_json_record::read::FromValue;
use gltf_json_record::{copy_record, kinds, read_record};
use serde_json::Value;
use std::alloc::{AllocError, Global};

/// The joints that a mesh is bound to (glTF 2.0, section 5.28, "Skin").
#[derive(Debug, Drop)]
pub struct Skin {
    /// The accessor of the matrices, one a joint, that bring a vertex into the joint's space:
    /// `inverseBindMatrices`. Identities where absent.
    pub inverse_bind_matrices: Option<Index<kinds::Accessor>>,
    /// The nodes that are the joints, in the order in which vertices name them: `joints`.
    pub joints: Vec<Index<kinds::Node>>,
    /// The node that is the root of the skeleton: `skeleton`.
    pub skeleton: Option<Index<kinds::Node>>,
    /// A name given by the user: `name`.
    pub name: Option<String>,
    /// The extensions: `extensions`. None is known here.
    pub extensions: Option<Boxed<Others>>,
    /// What the application stores here: `extras`.
    pub extras: Extras,
}

impl Skin {
    ghost use Rattle.gltf_json_scene.specs.Skins.{skin};

    /// A copy of the record, which shows what this one shows.
    #[tactic(auto, unfolding(crate::specs::Skins::skin))]
    pub fn clone(&self, alloc: Global) -> Result<Skin, AllocError>
        ensures { IfOk result (IsCopy skin self.now) }
    {
        copy_record!(self, alloc; Skin { inverse_bind_matrices, skeleton, } with {
            joints: Member,
            name: Maybe,
            extensions: Maybe,
            extras: Maybe,
        })
    }
}

impl Copies for Skin {
    fn copy(&self, alloc: Global) -> Result<Skin, AllocError> {
        self.clone(alloc)
    }
}

/// The rows of a skin, for a macro that reads a record by them:
/// `skin_rows!(read_record!(alloc, value))`.
#[macro_export]
macro_rules! skin_rows {
    ($read:ident!($($from:ident),*)) => {
        $read!($($from),*; Skin {
            inverse_bind_matrices: optional("inverseBindMatrices"),
            joints: required("joints"),
            skeleton: optional("skeleton"),
            name: optional("name"),
            extensions: optional("extensions"),
            extras: optional("extras"),
        })
    };
}

impl FromValue for Skin {
    ghost use Rattle.gltf_json_scene.specs.Skins.{skin};

    ghost kind = { skin };

    #[tactic(auto, unfolding(crate::specs::Skins::skin))]
    fn from_value(alloc: Global, value: &Value) -> Result<Skin, Error> {
        skin_rows!(read_record!(alloc, value))
    }
}
