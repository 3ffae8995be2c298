//! The extensions of animations and of metadata.

use gltf_json_record::error::Error;
use gltf_json_record::read::FromValue;
use gltf_json_record::read_record;
use gltf_validation::counts::Counts;
use gltf_validation::location::Location;
use gltf_validation::report::Report;
use gltf_validation::validate::Validate;
use serde_json::Value;
use std::alloc::{AllocError, Global};

/// What a channel of an animation changes (the extension `KHR_animation_pointer`).
#[derive(Debug, Drop)]
pub struct AnimationPointer {
    /// The JSON Pointer of the property, as it stands: `pointer`.
    pub pointer: String,
}

impl FromValue for AnimationPointer {
    ghost use Rattle.gltf_extension_records.specs.Others.{animation_pointer};

    ghost kind = { animation_pointer };

    #[tactic(auto, unfolding(crate::specs::Others::animation_pointer))]
    fn from_value(alloc: Global, value: &Value) -> Result<AnimationPointer, Error> {
        read_record!(alloc, value; AnimationPointer {
            pointer: required("pointer"),
        })
    }
}

impl Validate for AnimationPointer {
    ghost use Rattle.gltf_validation.specs.Rules.{Nothing};

    ghost rules = { λ _ _. Nothing };

    fn validate(
        &self,
        _counts: &Counts,
        _location: &Location<'_>,
        _report: &mut Report,
    ) -> Result<(), AllocError> {
        Ok(())
    }
}

/// Which packet of metadata describes an object (the extension `KHR_xmp_json_ld`, at other objects
/// than the root).
#[derive(Clone, Copy, Debug)]
pub struct XmpPacket {
    /// The position in the list `packets` of the root's extension: `packet`. No rule of a document
    /// says that it is below the length of that list.
    pub packet: u32,
}

impl FromValue for XmpPacket {
    ghost use Rattle.gltf_extension_records.specs.Others.{xmp_packet};

    ghost kind = { xmp_packet };

    #[tactic(auto, unfolding(crate::specs::Others::xmp_packet))]
    fn from_value(alloc: Global, value: &Value) -> Result<XmpPacket, Error> {
        read_record!(alloc, value; XmpPacket {
            packet: required("packet"),
        })
    }
}
