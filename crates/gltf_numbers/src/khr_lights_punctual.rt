//! The numbers of lights (the extension `KHR_lights_punctual`).

ghost use Rattle.gltf_look.specs.Lights.{light_handle};
ghost use Rattle.gltf_numbers.specs.Lights.{light_numbers, kind_numbers};

use crate::defaults::{INNER_CONE_ANGLE, LIGHT_COLOR, LIGHT_INTENSITY, OUTER_CONE_ANGLE};
use crate::of_handles::Numbers;
use crate::value::{number_if, number_or, numbers_or};
use gltf_look::khr_lights_punctual as handles;
use gltf_rules::Records;

/// The numbers of a light (`KHR_lights_punctual`, "Light Shared Properties").
#[derive(Clone, Copy, Debug)]
pub struct Light {
    /// The colour, as linear red, green and blue: `color`, by default 1 each.
    pub color: [f64; 3],
    /// The brightness, in candela for point and spot lights and in lux for directional ones:
    /// `intensity`, by default 1.
    pub intensity: f64,
    /// The distance in metres at which the light ends: `range`; None where it is absent, which
    /// means that it does not end.
    pub range: Option<f64>,
}

impl<D: Records> Numbers for handles::Light<'_, D> {
    type Numbers = Light;

    ghost of = { λ l. light_numbers (light_handle l).json };

    fn numbers(&self) -> Option<Light> {
        Some(Light {
            color: numbers_or(self.color(), LIGHT_COLOR)?,
            intensity: number_or(self.intensity(), LIGHT_INTENSITY)?,
            range: number_if(self.range())?,
        })
    }
}

/// How a light shines, in numbers (`KHR_lights_punctual`, "Light Types").
#[derive(Clone, Copy, Debug)]
pub enum Kind {
    /// From infinitely far, in the direction -z of its node.
    Directional,
    /// From its node, in all directions.
    Point,
    /// From its node, in a cone round -z.
    Spot {
        /// The angle, in radians from the cone's axis, at which the light begins to fade:
        /// `innerConeAngle`, by default 0.
        inner_cone_angle: f64,
        /// The angle, in radians from the cone's axis, at which the light ends: `outerConeAngle`,
        /// by default a quarter of pi.
        outer_cone_angle: f64,
    },
}

impl Numbers for handles::Kind<'_> {
    type Numbers = Kind;

    ghost of = { kind_numbers };

    fn numbers(&self) -> Option<Kind> {
        match *self {
            handles::Kind::Directional => Some(Kind::Directional),
            handles::Kind::Point => Some(Kind::Point),
            handles::Kind::Spot {
                inner_cone_angle,
                outer_cone_angle,
            } => Some(Kind::Spot {
                inner_cone_angle: number_or(inner_cone_angle, INNER_CONE_ANGLE)?,
                outer_cone_angle: number_or(outer_cone_angle, OUTER_CONE_ANGLE)?,
            }),
        }
    }
}
