//! Records inside of others.
ghost use Rattle.gltf_handles.specs.Members.{Follows};
ghost use Rattle.gltf_validation.specs.Documents.{counts_of};
ghost use Rattle.gltf_validation.specs.Members.{optional_rules};
ghost use Rattle.gltf_validation.specs.Rules.{Hold};
ghost use Rattle.gltf_extensions.specs.Handles.{IsHandle};

use crate::handle::Handle;
use gltf_rules::Records;
use gltf_validation::validate::Validate;

/// The handle of a record that may be absent. Its rules hold.
pub(crate) fn part_of<'a, R: Validate + Copy, D: Records>(
    document: &'a D,
    record_if: &Option<R>,
) -> Option<Handle<'a, R, D>>
    requires { Hold (optional_rules (R.rules (counts_of (D.root document.now))) record_if.now) }
    ensures { Follows (IsHandle (D.root document.now)) record_if.now result }
{
    let json = (*record_if)?;
    Some(Handle { document, json })
}
