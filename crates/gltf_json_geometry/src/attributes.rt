//! The attributes of a primitive, as they are read.
ghost use Rattle.std.specs.Prelude.{◌≡◌, IfOk, OnOk};
ghost use Rattle.std.proofs.lemmas.Map.Lookups.{map_keys};
ghost use Rattle.gltf_json_geometry.specs.AttributeSteps.{IsPut};
ghost use Rattle.gltf_json_geometry.specs.Semantics.{semantic_name};

use crate::semantic::Semantic;
use gltf_json_record::error::Error;
use gltf_json_record::index::Index;
use gltf_json_record::kinds;
use gltf_json_record::lent::Lent;
use gltf_json_record::path::Step;
use gltf_json_record::read::{FromValue, member, under, wrong_kind};
use serde_json::Value;
use std::alloc::{AllocError, Global};
use std::collections::BTreeMap;

/// The attributes of a primitive, known and unknown.
#[derive(Drop)]
pub struct Attributes {
    /// The index of each known attribute, by what it means.
    pub known: BTreeMap<Semantic, Index<kinds::Accessor>>,
    /// The names of the others, in the order of their bytes.
    pub unknown: Vec<String>,
}

impl Attributes {
    /// One more attribute, with its name and the index that it has.
    fn put(
        &mut self,
        alloc: Global,
        name: &str,
        index: Index<kinds::Accessor>,
    ) -> Result<(), AllocError>
        ensures { OnOk result (IsPut name.now index self.old self.new) }
    {
        match Semantic::of_name(alloc, name)? {
            Some(semantic) => {
                drop(self.known.insert(semantic, index)?);
            }
            None => self.unknown.push(String::from_str(alloc, name)?)?,
        }
        Ok(())
    }
}

impl FromValue for Attributes {
    ghost use Rattle.gltf_json_geometry.specs.AttributeKind.{attributes};

    ghost kind = { attributes };

    fn from_value(alloc: Global, value: &Value) -> Result<Attributes, Error> {
        let Some(members) = value.as_object() else {
            return Err(wrong_kind(alloc));
        };
        let mut attributes = Attributes {
            known: BTreeMap::new(alloc),
            unknown: Vec::new(alloc),
        };
        for name in members.keys() {
            if let Some(found) = member(value, name) {
                match Index::from_value(alloc, found) {
                    Ok(index) => attributes.put(alloc, name, index)?,
                    Err(error) => return Err(under(Step::Attribute(name.clone()?), error)),
                }
            }
        }
        Ok(attributes)
    }
}

/// A copy of the known attributes, with the same names.
fn attributes_copy(
    attributes: &BTreeMap<Semantic, Index<kinds::Accessor>>,
) -> Result<BTreeMap<Semantic, Index<kinds::Accessor>>, AllocError>
    ensures { IfOk result (λ copy. map_keys semantic_name copy.entries
        ≡ map_keys semantic_name attributes.now.entries) }
{
    attributes.clone()
}

/// The known attributes, lent to be copied.
#[derive(Clone, Copy)]
pub(crate) struct Known<'a>(pub &'a BTreeMap<Semantic, Index<kinds::Accessor>>);

impl Lent for Known<'_> {
    ghost use Rattle.std.specs.Prelude.{◌≡◌};
    ghost use Rattle.std.proofs.lemmas.Map.Lookups.{map_keys};
    ghost use Rattle.gltf_json_geometry.specs.Semantics.{semantic_name};

    type Owned = BTreeMap<Semantic, Index<kinds::Accessor>>;

    ghost is_copied = { λ attributes copy.
        map_keys semantic_name copy.entries ≡ map_keys semantic_name attributes.0.now.entries };

    fn copied(
        &self,
        _alloc: Global,
    ) -> Result<BTreeMap<Semantic, Index<kinds::Accessor>>, AllocError> {
        attributes_copy(self.0)
    }
}
