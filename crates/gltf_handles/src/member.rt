//! Members of records, as handles give them.

ghost use Rattle.std.specs.Prelude.{◌≡◌};
ghost use Rattle.std.specs.Option.{option_copied};
ghost use Rattle.gltf_handles.specs.Members.{unknown_extensions, IsCode};
ghost use Rattle.gltf_validation.specs.Members.{code_rules};
ghost use Rattle.gltf_validation.specs.Rules.{Hold};

use gltf_json::boxed::{Boxed, lent};
use gltf_json::extensions::Others;
use gltf_json::validation::Checked;
use gltf_json::{Map, Value};

/// The extensions of a record at which none is known; None where there is no member `extensions`.
pub fn unknown_extensions(member: &Option<Boxed<Others>>) -> Option<&Map<String, Value>>
    ensures { option_copied result ≡ unknown_extensions member.now }
{
    let extensions = lent(member)?;
    Some(&extensions.others)
}

/// The meaning of a code that is in its table, as each code of a valid document is.
pub fn meaning<C: Copy>(code: Checked<C>) -> C
    requires { Hold (code_rules code) }
    ensures { IsCode code result }
{
    match code {
        Checked::Valid(meaning) => meaning,
        Checked::Invalid => unreachable!(),
    }
}
