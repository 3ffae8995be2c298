//! The extension of a view.

use crate::members;
use gltf_json_record::error::Error;
use gltf_json_record::index::Index;
use gltf_json_record::read::FromValue;
use gltf_json_record::validation::{Checked, Code};
use gltf_json_record::{kinds, read_record};
use gltf_validation::counts::Counts;
use gltf_validation::location::Location;
use gltf_validation::report::Report;
use gltf_validation::validate::Validate;
use serde_json::Value;
use std::alloc::{AllocError, Global};

/// What the compressed bytes of a view are (`mode` of `EXT_meshopt_compression`).
#[derive(Clone, Copy, Debug, PartialEq, Eq)]
pub enum MeshoptMode {
    /// Items of any kind: the word `ATTRIBUTES`.
    Attributes,
    /// Indices of a list of triangles: the word `TRIANGLES`.
    Triangles,
    /// Indices of any order: the word `INDICES`.
    Indices,
}

impl Code for MeshoptMode {
    ghost use Rattle.gltf_extension_records.specs.Views.{meshopt_mode};

    ghost reads = { meshopt_mode };

    fn read(value: &Value) -> Option<Checked<MeshoptMode>> {
        Some(match value.as_str()? {
            "ATTRIBUTES" => Checked::Valid(MeshoptMode::Attributes),
            "TRIANGLES" => Checked::Valid(MeshoptMode::Triangles),
            "INDICES" => Checked::Valid(MeshoptMode::Indices),
            _ => Checked::Invalid,
        })
    }
}

/// What is done to the items after they are decompressed (`filter` of `EXT_meshopt_compression`).
#[derive(Clone, Copy, Debug, PartialEq, Eq)]
pub enum MeshoptFilter {
    /// Nothing: the word `NONE`.
    None,
    /// Unit vectors are made of points of an octahedron: the word `OCTAHEDRAL`.
    Octahedral,
    /// Quaternions are made of their three smaller components: the word `QUATERNION`.
    Quaternion,
    /// Floats are made of mantissas and exponents: the word `EXPONENTIAL`.
    Exponential,
}

impl Code for MeshoptFilter {
    ghost use Rattle.gltf_extension_records.specs.Views.{meshopt_filter};

    ghost reads = { meshopt_filter };

    fn read(value: &Value) -> Option<Checked<MeshoptFilter>> {
        Some(match value.as_str()? {
            "NONE" => Checked::Valid(MeshoptFilter::None),
            "OCTAHEDRAL" => Checked::Valid(MeshoptFilter::Octahedral),
            "QUATERNION" => Checked::Valid(MeshoptFilter::Quaternion),
            "EXPONENTIAL" => Checked::Valid(MeshoptFilter::Exponential),
            _ => Checked::Invalid,
        })
    }
}

/// Where the compressed bytes of a view are, and how they are decompressed (the extension
/// `EXT_meshopt_compression`).
#[derive(Clone, Copy, Debug)]
pub struct MeshoptCompression {
    /// The buffer with the compressed bytes: `buffer`.
    pub buffer: Index<kinds::Buffer>,
    /// Where they begin in the buffer, in bytes: `byteOffset`, by default 0.
    pub byte_offset: u64,
    /// How many they are, in bytes: `byteLength`.
    pub byte_length: u64,
    /// The size of an item when decompressed, in bytes: `byteStride`.
    pub byte_stride: u64,
    /// The number of items: `count`.
    pub count: u64,
    /// What the items are: `mode`.
    pub mode: Checked<MeshoptMode>,
    /// What is done to the items then: `filter`, by default nothing.
    pub filter: Checked<MeshoptFilter>,
}

impl FromValue for MeshoptCompression {
    ghost use Rattle.gltf_extension_records.specs.Views.{meshopt_compression};

    ghost kind = { meshopt_compression };

    #[tactic(auto, unfolding(crate::specs::Views::meshopt_compression))]
    fn from_value(alloc: Global, value: &Value) -> Result<MeshoptCompression, Error> {
        read_record!(alloc, value; MeshoptCompression {
            buffer: required("buffer"),
            byte_offset: or_default("byteOffset", 0),
            byte_length: required("byteLength"),
            byte_stride: required("byteStride"),
            count: required("count"),
            mode: required("mode"),
            filter: or_default("filter", Checked::Valid(MeshoptFilter::None)),
        })
    }
}

impl Validate for MeshoptCompression {
    ghost use Rattle.gltf_extension_records.specs.Rules.{meshopt_compression_rules};

    ghost rules = { λ c r. meshopt_compression_rules c r };

    fn validate(
        &self,
        counts: &Counts,
        location: &Location<'_>,
        report: &mut Report,
    ) -> Result<(), AllocError> {
        members!(self, counts, location, report; {
            buffer: "buffer",
            mode: "mode",
            filter: "filter",
        })
    }
}
