//! Lights (`KHR_lights_punctual`).
ghost use Rattle.std.specs.Prelude.{◌≡◌};
ghost use Rattle.std.specs.Option.{option_copied};
ghost use Rattle.gltf_handles.specs.Sizes.{code_of};
ghost use Rattle.gltf_c_look.specs.Lights.{shown_light, light_of, type_number, inner_of, outer_of};

use crate::number::{NO_NUMBER, number_else};
use gltf_c_scene::kind::lights;
use gltf_c_scene::numbers::numbers_else;
use gltf_json::Root;
use gltf_json::extensions::scene::khr_lights_punctual::{Light, Spot, Type};
use gltf_json_record::validation::Checked;
use gltf_numbers::defaults::{INNER_CONE_ANGLE, LIGHT_COLOR, LIGHT_INTENSITY, OUTER_CONE_ANGLE};

/// What a light is. C declares the same struct, in which the first member is `type`.
#[repr(C)]
#[derive(Clone, Copy, Drop)]
pub struct GltfLight {
    /// 0 directional, 1 point, 2 spot.
    pub type_: u32,
    /// 0.
    pub reserved_word: u32,
    /// Red, green, blue.
    pub color: [f64; 3],
    /// In candela, or lux of a directional light.
    pub intensity: f64,
    /// How far it reaches; 0 where it has no end.
    pub range: f64,
    /// Of a spot, in radians.
    pub inner_cone_angle: f64,
    /// Of a spot, in radians.
    pub outer_cone_angle: f64,
    /// 0.
    pub reserved: [usize; 2],
}

/// What the light at an index is.
pub fn light(root: &Root, index: usize) -> Option<GltfLight>
    ensures { result ≡ light_of index root.now }
{
    Some(shown_light(lights(root).get(index)?))
}

fn shown_light(light: &Light) -> GltfLight
    ensures { result ≡ shown_light light.now }
{
    GltfLight {
        type_: type_number(light.type_),
        reserved_word: 0,
        color: numbers_else(&light.color, LIGHT_COLOR),
        intensity: number_else(light.intensity.as_ref(), LIGHT_INTENSITY),
        range: number_else(light.range.as_ref(), NO_NUMBER),
        inner_cone_angle: inner_of(light.spot.as_ref()),
        outer_cone_angle: outer_of(light.spot.as_ref()),
        reserved: [0; 2],
    }
}

/// The number of a type.
fn type_number(kind: Checked<Type>) -> u32
    ensures { result ≡ code_of type_number kind }
{
    match kind {
        Checked::Valid(Type::Directional) | Checked::Invalid => 0,
        Checked::Valid(Type::Point) => 1,
        Checked::Valid(Type::Spot) => 2,
    }
}

fn inner_of(spot: Option<&Spot>) -> f64
    ensures { result ≡ inner_of (option_copied spot.entry) }
{
    match spot {
        Some(spot) => number_else(spot.inner_cone_angle.as_ref(), INNER_CONE_ANGLE),
        None => INNER_CONE_ANGLE,
    }
}

fn outer_of(spot: Option<&Spot>) -> f64
    ensures { result ≡ outer_of (option_copied spot.entry) }
{
    match spot {
        Some(spot) => number_else(spot.outer_cone_angle.as_ref(), OUTER_CONE_ANGLE),
        None => OUTER_CONE_ANGLE,
    }
}
