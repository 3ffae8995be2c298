//! How many vertices or indices a mode takes (glTF 2.0, section 3.7.2.1).
ghost use Rattle.std.specs.Prelude.{◌≡◌, OnOk};
ghost use Rattle.gltf_validation.specs.Locations.{places_of};
ghost use Rattle.gltf_findings.specs.Checks.{told_after, optional_checks};
ghost use Rattle.gltf_inspect_meshes.specs.Modes.{fits_mode, drawn, mode_checks};

use crate::meaning::{POSITIONS, count_at, count_of_index, first_of};
use gltf_findings::code::Code;
use gltf_findings::findings::Findings;
use gltf_json_geometry::accessor::Accessor;
use gltf_json_geometry::mesh::{Mode, Primitive};
use gltf_json_record::validation::Checked;
use gltf_validation::location::Location;
use std::alloc::AllocError;

/// Reports whether what is drawn does not fit the mode.
pub(crate) fn tell_mode(
    accessors: &[Accessor],
    primitive: &Primitive,
    location: &Location<'_>,
    findings: &mut Findings,
) -> Result<(), AllocError>
    ensures { OnOk result (findings.new ≡ told_after findings.old (places_of location.now)
        (optional_checks (mode_checks primitive.now.mode)
        (drawn accessors.now primitive.now.indices primitive.now.attributes.entries))) }
{
    match drawn(accessors, primitive) {
        None => Ok(()),
        Some(count) => {
            let fits = fits_mode(primitive.mode, count);
            findings.tell(fits, Code::IncompatibleMode, location)
        }
    }
}

fn drawn(accessors: &[Accessor], primitive: &Primitive) -> Option<u64>
    ensures { result
        ≡ drawn accessors.now primitive.now.indices primitive.now.attributes.entries }
{
    match primitive.indices {
        Some(index) => count_at(accessors, index.value()),
        None => count_of_index(accessors, first_of(POSITIONS, &primitive.attributes)),
    }
}

fn fits_mode(mode: Checked<Mode>, count: u64) -> bool
    ensures { result ≡ fits_mode mode count }
{
    match mode {
        Checked::Invalid => true,
        Checked::Valid(Mode::Points) => 1 <= count,
        Checked::Valid(Mode::Lines) => 2 <= count && count % 2 == 0,
        Checked::Valid(Mode::LineLoop | Mode::LineStrip) => 2 <= count,
        Checked::Valid(Mode::Triangles) => 3 <= count && count % 3 == 0,
        Checked::Valid(Mode::TriangleStrip | Mode::TriangleFan) => 3 <= count,
    }
}
