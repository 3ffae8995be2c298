//! Lights (the extension `KHR_lights_punctual`).

ghost use Rattle.std.specs.Prelude.{◌≡◌, ◌<◌, length};
ghost use Rattle.std.specs.Option.{option_copied};
ghost use Rattle.gltf_handles.specs.Members.{text};
ghost use Rattle.gltf_validation.specs.Lights.{lights_of};

use gltf_handles::inner::Inner;
use gltf_handles::member::meaning;
use gltf_json::boxed::lent;
use gltf_json::extensions::scene::khr_lights_punctual::{self, Type};
use gltf_json::{Value, kinds};
use gltf_rules::{Records, Valid};

/// A light (`KHR_lights_punctual`, "Light Shared Properties"). Its numbers are lent as they stand,
/// of any kind.
#[derive_where(Clone, Copy)]
#[derive_where(Debug; D)]
pub struct Light<'a, D: Records = Valid> {
    index: usize,
    inner: Inner<'a, khr_lights_punctual::Light, D>,
}

/// How a light shines (`KHR_lights_punctual`, "Light Types").
#[derive(Clone, Copy, Debug)]
pub enum Kind<'a> {
    /// From infinitely far, in the direction -z of its node.
    Directional,
    /// From its node, in all directions.
    Point,
    /// From its node, in a cone round -z.
    Spot {
        /// The angle, in radians from the cone's axis, at which the light begins to fade:
        /// `innerConeAngle`.
        inner_cone_angle: Option<&'a Value>,
        /// The angle, in radians from the cone's axis, at which the light ends: `outerConeAngle`.
        outer_cone_angle: Option<&'a Value>,
    },
}

impl<'a, D: Records> Light<'a, D> {
    ghost use Rattle.gltf_look.specs.Lights.{light_handle, IsLight, IsKind};

    /// The light at an index below the number of lights.
    pub fn new(document: &'a D, index: usize) -> Self
        requires { index < length (lights_of (D.root document.now).extensions) }
        ensures { IsLight (D.root document.now) index result }
    {
        Light {
            index,
            inner: Inner {
                document,
                json: document.get::<kinds::Light>(index),
            },
        }
    }

    /// The colour, as linear red, green and blue: `color`.
    pub fn color(&self) -> Option<&'a Value>
        ensures { option_copied result ≡ (light_handle self.now).json.color }
    {
        self.inner.json.color.as_ref()
    }

    /// The position among the lights of the document.
    pub fn index(&self) -> usize
        ensures { result ≡ (light_handle self.now).index }
    {
        self.index
    }

    /// The name given by the user.
    pub fn name(&self) -> Option<&'a str>
        ensures { option_copied result ≡ text (light_handle self.now).json.name }
    {
        self.inner.json.name.as_deref()
    }

    /// What the application stores here: `extras`.
    pub fn extras(&self) -> Option<&'a Value>
        ensures { option_copied result ≡ (light_handle self.now).json.extras }
    {
        lent(&self.inner.json.extras)
    }

    /// The brightness, in candela for point and spot lights and in lux for directional ones:
    /// `intensity`.
    pub fn intensity(&self) -> Option<&'a Value>
        ensures { option_copied result ≡ (light_handle self.now).json.intensity }
    {
        self.inner.json.intensity.as_ref()
    }

    /// The distance in metres at which the light ends: `range`.
    pub fn range(&self) -> Option<&'a Value>
        ensures { option_copied result ≡ (light_handle self.now).json.range }
    {
        self.inner.json.range.as_ref()
    }

    /// How the light shines: `type`, and of a spot its cone.
    pub fn kind(&self) -> Kind<'a>
        ensures { IsKind (light_handle self.now).json result }
    {
        match meaning(self.inner.json.type_) {
            Type::Directional => Kind::Directional,
            Type::Point => Kind::Point,
            Type::Spot => {
                let spot = self.inner.json.spot.as_ref().unwrap();
                Kind::Spot {
                    inner_cone_angle: spot.inner_cone_angle.as_ref(),
                    outer_cone_angle: spot.outer_cone_angle.as_ref(),
                }
            }
        }
    }
}
