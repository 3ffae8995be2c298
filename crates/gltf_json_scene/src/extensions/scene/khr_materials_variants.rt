//! The variants of a document's materials (`KHR_materials_variants`).
ghost use Rattle.std.specs.Prelude.{IfOk};
ghost use Rattle.gltf_json_record.specs.Copy.{IsCopy};

use gltf_json_record::copy::Copies;
use gltf_json_record::error::Error;
use gltf_json_record::lent::Member;
use gltf_json_record::read::FromValue;
use gltf_json_record::{copy_record, read_record};
use serde_json::Value;
use std::alloc::{AllocError, Global};

/// A variant, which primitives map to materials (`KHR_materials_variants`).
#[derive(Debug, Drop)]
pub struct Variant {
    /// The name of the variant: `name`.
    pub name: String,
}

impl Variant {
    ghost use Rattle.gltf_json_scene.specs.Variants.{variant};

    /// A copy of the record, which shows what this one shows.
    #[tactic(auto, unfolding(crate::specs::Variants::variant))]
    pub fn clone(&self, alloc: Global) -> Result<Variant, AllocError>
        ensures { IfOk result (IsCopy variant self.now) }
    {
        copy_record!(self, alloc; Variant {} with {
            name: Member,
        })
    }
}

impl Copies for Variant {
    fn copy(&self, alloc: Global) -> Result<Variant, AllocError> {
        self.clone(alloc)
    }
}

impl FromValue for Variant {
    ghost use Rattle.gltf_json_scene.specs.Variants.{variant};

    ghost kind = { variant };

    #[tactic(auto, unfolding(crate::specs::Variants::variant))]
    fn from_value(alloc: Global, value: &Value) -> Result<Variant, Error> {
        read_record!(alloc, value; Variant {
            name: required("name"),
        })
    }
}
