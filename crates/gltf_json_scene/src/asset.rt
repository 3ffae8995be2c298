//! What a document says of itself (glTF 2.0, section 3.2, "Asset").
ghost use Rattle.std.specs.Prelude.{IfOk};
ghost use Rattle.gltf_json_record.specs.Copy.{IsCopy};

use gltf_json_record::boxed::Boxed;
use gltf_json_record::copy::Copies;
use gltf_json_record::error::Error;
use gltf_json_record::extensions::Others;
use gltf_json_record::extras::Extras;
use gltf_json_record::lent::{Maybe, Member};
use gltf_json_record::read::FromValue;
use gltf_json_record::{copy_record, read_record};
use serde_json::Value;
use std::alloc::{AllocError, Global};

/// What a document says of itself (glTF 2.0, section 5.9, "Asset").
#[derive(Debug, Drop)]
pub struct Asset {
    /// The version of glTF that the document is written for, as `2.0`: `version`. Its text is not
    /// looked at.
    pub version: String,
    /// The program that wrote the document: `generator`.
    pub generator: Option<String>,
    /// Whose the document is: `copyright`.
    pub copyright: Option<String>,
    /// The least version of glTF that a reader has to know: `minVersion`.
    pub min_version: Option<String>,
    /// The extensions: `extensions`. None is known here.
    pub extensions: Option<Boxed<Others>>,
    /// What the application stores here: `extras`.
    pub extras: Extras,
}

impl Asset {
    ghost use Rattle.gltf_json_scene.specs.Assets.{asset};

    /// A copy of the record, which shows what this one shows.
    #[tactic(auto, unfolding(crate::specs::Assets::asset))]
    pub fn clone(&self, alloc: Global) -> Result<Asset, AllocError>
        ensures { IfOk result (IsCopy asset self.now) }
    {
        copy_record!(self, alloc; Asset {} with {
            version: Member,
            generator: Maybe,
            copyright: Maybe,
            min_version: Maybe,
            extensions: Maybe,
            extras: Maybe,
        })
    }
}

impl Copies for Asset {
    fn copy(&self, alloc: Global) -> Result<Asset, AllocError> {
        self.clone(alloc)
    }
}

impl FromValue for Asset {
    ghost use Rattle.gltf_json_scene.specs.Assets.{asset};

    ghost kind = { asset };

    #[tactic(auto, unfolding(crate::specs::Assets::asset))]
    fn from_value(alloc: Global, value: &Value) -> Result<Asset, Error> {
        read_record!(alloc, value; Asset {
            version: required("version"),
            generator: optional("generator"),
            copyright: optional("copyright"),
            min_version: optional("minVersion"),
            extensions: optional("extensions"),
            extras: optional("extras"),
        })
    }
}
