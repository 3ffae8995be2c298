//! An extension of a user's own, by the rows of its table, and files that are mended.
ghost use Rattle.std.specs.Prelude.{◌≢◌, IfOk, IfErr, codes};
ghost use Rattle.gltf_json_record.specs.Scalars.{size, index};
ghost use Rattle.gltf_json_record.specs.Table.{defaulted, optional, ◌&◌, table};
ghost use Rattle.gltf_validation.specs.Members.{member, index_rules, optional_rules};
ghost use Rattle.gltf_glb.specs.declared.error.Error.TheVariants.{Memory};
ghost use Rattle.gltf_material.specs.Materials.{material_handle};
ghost use Rattle.gltf.specs.Errors.{OutOfMemoryOr};
ghost use Rattle.gltf_extensions.specs.Handles.{IsRead};
ghost use Rattle.gltf_guide.specs.Imports.{MendsAs, MendsAsNone, RefusesToMend};
ghost use Rattle.gltf_guide.specs.Materials.{unread_extension};

use gltf::Material;
use gltf_extension_records::members;
use gltf_extensions::prelude::*;
use gltf_json_record::error::Error;
use gltf_json_record::index::Index;
use gltf_json_record::read::FromValue;
use gltf_json_record::{kinds, read_record};
use gltf_lenient::{Imported, Mends};
use gltf_validation::counts::Counts;
use gltf_validation::location::Location;
use gltf_validation::report::Report;
use gltf_validation::validate::Validate;
use serde_json::Value;
use std::alloc::{AllocError, Global};

/// How wet a material is: layers of water, and a texture that says where.
#[derive(Clone, Copy, Debug)]
pub struct Wetness {
    pub layers: u64,
    pub mask: Option<Index<kinds::Texture>>,
}

impl FromValue for Wetness {
    ghost kind = { table (defaulted (codes "layers") (λ r. r.layers) 1 size
        & optional (codes "mask") (λ r. r.mask) index) };

    fn from_value(alloc: Global, value: &Value) -> Result<Wetness, Error> {
        read_record!(alloc, value; Wetness {
            layers: or_default("layers", 1), mask: optional("mask"),
        })
    }
}

impl Validate for Wetness {
    ghost rules = { λ c r. member (codes "mask") (optional_rules (index_rules c.textures) r.mask) };

    fn validate(
        &self,
        counts: &Counts,
        location: &Location<'_>,
        report: &mut Report,
    ) -> Result<(), AllocError> {
        members!(self, counts, location, report; { mask: "mask", })
    }
}

/// Reads the extension of a material, where it is there.
pub fn wetness_of<'a>(
    alloc: Global,
    material: &Material<'a>,
) -> Option<Result<Handle<'a, Wetness>, ExtensionFault>>
    ensures { let m = material_handle material.now in
        IsRead ⟦<Wetness as FromValue>⟧.kind ⟦<Wetness as Validate>⟧.rules m.document
        (unread_extension (codes "STUDIO_wetness") m.json) result }
{
    let value = material.extension_value("STUDIO_wetness");
    read_handle(alloc, material.document(), value)
}

/// Imports a file whose images may stand in extensions, whose channels may name no node, and whose
/// attributes may have names of their own.
pub fn import(alloc: Global, bytes: &[u8]) -> gltf::Result<Imported>
    ensures accepted { IfOk result (MendsAs bytes.now) }
    ensures refused { IfErr result (OutOfMemoryOr (RefusesToMend bytes.now)) }
    ensures exact { IfErr result (λ e. e ≢ Memory → MendsAsNone bytes.now) }
{
    let options = gltf_lenient::Options {
        also_supported: supported(),
        mends: Mends {
            skip_channels_without_node: true,
            skip_unknown_attributes: true,
            texture_sources: &["KHR_texture_basisu", "EXT_texture_webp"],
        },
    };
    gltf_lenient::import_slice_with(alloc, bytes, &options)
}
