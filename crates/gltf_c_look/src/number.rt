//! Numbers of members, with their defaults.
ghost use Rattle.std.specs.Prelude.{◌≡◌};
ghost use Rattle.std.specs.Option.{option_copied};
ghost use Rattle.gltf_c_look.specs.Numbers.{number_else};

use gltf_json::Value;
use gltf_numbers::number_or;

/// What stands for a number that is absent and has no default.
pub const NO_NUMBER: f64 = 0.0;

/// The scale of a texture that has none of its own.
pub const NO_SCALE: f64 = 1.0;

/// The number of a member; the default where it is absent or no number.
pub(crate) fn number_else(member: Option<&Value>, default: f64) -> f64
    ensures { result ≡ number_else default (option_copied member.entry) }
{
    match number_or(member, default) {
        Some(number) => number,
        None => default,
    }
}
