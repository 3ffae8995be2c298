//! The member `extensions` of a record at which no extension is known.
ghost use Rattle.std.specs.Prelude.{IfOk};
ghost use Rattle.gltf_json_record.specs.Copy.{IsCopy};

use crate::copy::Copies;
use crate::error::Error;
use crate::lent::Unnamed;
use crate::read::FromValue;
use crate::{copy_record, read_record};
use serde_json::{Map, Value};
use std::alloc::{AllocError, Global};

/// The extensions of a record at which none is known (glTF 2.0, section 3.12, "Specifying
/// Extensions").
#[derive(Debug, Drop)]
pub struct Others {
    /// Every member of `extensions`, as it stands.
    pub others: Map<String, Value>,
}

impl Others {
    ghost use Rattle.gltf_json_record.specs.Extensions.{others_only};

    /// A copy of the record, which shows what this one shows.
    #[tactic(auto, unfolding(crate::specs::Extensions::others_only))]
    pub fn clone(&self, alloc: Global) -> Result<Others, AllocError>
        ensures { IfOk result (IsCopy others_only self.now) }
    {
        copy_record!(self, alloc; Others {} with {
            others: Unnamed,
        })
    }
}

impl Copies for Others {
    fn copy(&self, alloc: Global) -> Result<Others, AllocError> {
        self.clone(alloc)
    }
}

impl FromValue for Others {
    ghost use Rattle.gltf_json_record.specs.Extensions.{others_only};

    ghost kind = { others_only };

    #[tactic(auto, unfolding(crate::specs::Extensions::others_only))]
    fn from_value(alloc: Global, value: &Value) -> Result<Others, Error> {
        read_record!(alloc, value; Others {
            others: others(),
        })
    }
}
