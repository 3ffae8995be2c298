//! The objects of which no record keeps the extensions.
ghost use Rattle.std.specs.Prelude.{◌≡◌, [], OnOk};
ghost use Rattle.serde_json.specs.View.{view};
ghost use Rattle.gltf_inspect_meshes.specs.Names.{has_name};
ghost use Rattle.gltf_findings.specs.Checks.{told_after};
ghost use Rattle.gltf_inspect_unkept.specs.Documents.{sparse, accessor, channel, animation, document};

use crate::parts::{Extended, Part, tell_list, tell_member};
use gltf_findings::findings::Findings;
use gltf_inspect_meshes::names::NameSet;
use gltf_validation::location::Location;
use serde_json::Value;
use std::alloc::AllocError;

/// A sparse part of an accessor (glTF 2.0, section 5.2).
struct Sparse;

impl Part for Sparse {
    ghost checks = { sparse };

    fn tell(
        value: &Value,
        used: &NameSet,
        location: &Location<'_>,
        findings: &mut Findings,
    ) -> Result<(), AllocError> {
        Extended::tell(value, used, location, findings)?;
        tell_member::<Extended>(value, "indices", used, location, findings)?;
        tell_member::<Extended>(value, "values", used, location, findings)
    }
}

/// An accessor (section 5.1).
struct Accessor;

impl Part for Accessor {
    ghost checks = { accessor };

    fn tell(
        value: &Value,
        used: &NameSet,
        location: &Location<'_>,
        findings: &mut Findings,
    ) -> Result<(), AllocError> {
        tell_member::<Sparse>(value, "sparse", used, location, findings)
    }
}

/// A channel of an animation (section 5.6).
struct Channel;

impl Part for Channel {
    ghost checks = { channel };

    fn tell(
        value: &Value,
        used: &NameSet,
        location: &Location<'_>,
        findings: &mut Findings,
    ) -> Result<(), AllocError> {
        Extended::tell(value, used, location, findings)?;
        tell_member::<Extended>(value, "target", used, location, findings)
    }
}

/// An animation (section 5.5).
struct Animation;

impl Part for Animation {
    ghost checks = { animation };

    fn tell(
        value: &Value,
        used: &NameSet,
        location: &Location<'_>,
        findings: &mut Findings,
    ) -> Result<(), AllocError> {
        tell_list::<Channel>(value, "channels", used, location, findings)?;
        tell_list::<Extended>(value, "samplers", used, location, findings)
    }
}

/// Reports what is found in the value of a document, in order.
pub(crate) fn tell_document(
    value: &Value,
    used: &NameSet,
    findings: &mut Findings,
) -> Result<(), AllocError>
    ensures { OnOk result (findings.new
        ≡ told_after findings.old [] (document (has_name used.now) (view value.now))) }
{
    let whole = Location::Whole;
    tell_list::<Accessor>(value, "accessors", used, &whole, findings)?;
    tell_list::<Animation>(value, "animations", used, &whole, findings)
}
