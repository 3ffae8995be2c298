//! The lights of a document (`KHR_lights_punctual`).
ghost use Rattle.std.specs.Prelude.{IfOk};
ghost use Rattle.gltf_json_record.specs.Copy.{IsCopy};

use gltf_json_record::copy::Copies;
use gltf_json_record::error::Error;
use gltf_json_record::extras::Extras;
use gltf_json_record::lent::Maybe;
use gltf_json_record::read::FromValue;
use gltf_json_record::validation::{Checked, Code};
use gltf_json_record::{copy_record, read_record};
use serde_json::Value;
use std::alloc::{AllocError, Global};

/// How a light shines (`KHR_lights_punctual`, "Light Types").
#[derive(Clone, Copy, Debug, PartialEq, Eq)]
pub enum Type {
    /// From infinitely far, in the direction -z of its node: the code `directional`.
    Directional,
    /// From its node, in all directions: the code `point`.
    Point,
    /// From its node, in a cone round -z: the code `spot`.
    Spot,
}

impl Type {
    ghost use Rattle.std.specs.Prelude.{◌≡◌, Some};
    ghost use Rattle.serde_json.specs.Data.{string};
    ghost use Rattle.gltf_json_record.specs.declared.validation.Checked.TheVariants.{Valid};
    ghost use Rattle.gltf_json_scene.specs.Codes.{light_type};

    /// The string that stands for it in JSON (`KHR_lights_punctual`, "Light Types"), as `spot`.
    pub fn as_str(&self) -> &'static str
        ensures { light_type (string result.now) ≡ Some (Valid self.now) }
    {
        match self {
            Type::Directional => "directional",
            Type::Point => "point",
            Type::Spot => "spot",
        }
    }
}

impl Code for Type {
    ghost use Rattle.gltf_json_scene.specs.Codes.{light_type};

    ghost reads = { light_type };

    fn read(value: &Value) -> Option<Checked<Type>> {
        Some(match value.as_str()? {
            "directional" => Checked::Valid(Type::Directional),
            "point" => Checked::Valid(Type::Point),
            "spot" => Checked::Valid(Type::Spot),
            _ => Checked::Invalid,
        })
    }
}

/// The cone of a spot light (`KHR_lights_punctual`, "Spot"). Its numbers are kept as they stand, of
/// any kind.
#[derive(Debug, Drop)]
pub struct Spot {
    /// The angle, in radians from the cone's axis, at which the light begins to fade:
    /// `innerConeAngle`.
    pub inner_cone_angle: Option<Value>,
    /// The angle, in radians from the cone's axis, at which the light ends: `outerConeAngle`.
    pub outer_cone_angle: Option<Value>,
}

impl Spot {
    ghost use Rattle.gltf_json_scene.specs.Lights.{spot};

    /// A copy of the record, which shows what this one shows.
    #[tactic(auto, unfolding(crate::specs::Lights::spot))]
    pub fn clone(&self, alloc: Global) -> Result<Spot, AllocError>
        ensures { IfOk result (IsCopy spot self.now) }
    {
        copy_record!(self, alloc; Spot {} with {
            inner_cone_angle: Maybe,
            outer_cone_angle: Maybe,
        })
    }
}

impl Copies for Spot {
    fn copy(&self, alloc: Global) -> Result<Spot, AllocError> {
        self.clone(alloc)
    }
}

impl FromValue for Spot {
    ghost use Rattle.gltf_json_scene.specs.Lights.{spot};

    ghost kind = { spot };

    #[tactic(auto, unfolding(crate::specs::Lights::spot))]
    fn from_value(alloc: Global, value: &Value) -> Result<Spot, Error> {
        read_record!(alloc, value; Spot {
            inner_cone_angle: optional("innerConeAngle"),
            outer_cone_angle: optional("outerConeAngle"),
        })
    }
}

/// A light (`KHR_lights_punctual`, "Light Shared Properties"). Its numbers are kept as they stand,
/// of any kind.
#[derive(Debug, Drop)]
pub struct Light {
    /// The colour, as linear red, green and blue: `color`.
    pub color: Option<Value>,
    /// The brightness, in candela for point and spot lights and in lux for directional ones:
    /// `intensity`.
    pub intensity: Option<Value>,
    /// The distance at which the light ends: `range`.
    pub range: Option<Value>,
    /// How the light shines: `type`.
    pub type_: Checked<Type>,
    /// The cone of a spot light: `spot`.
    pub spot: Option<Spot>,
    /// A name given by the user: `name`.
    pub name: Option<String>,
    /// What the application stores here: `extras`.
    pub extras: Extras,
}

impl Light {
    ghost use Rattle.gltf_json_scene.specs.Lights.{light};

    /// A copy of the record, which shows what this one shows.
    #[tactic(auto, unfolding(crate::specs::Lights::light))]
    pub fn clone(&self, alloc: Global) -> Result<Light, AllocError>
        ensures { IfOk result (IsCopy light self.now) }
    {
        copy_record!(self, alloc; Light { type_, } with {
            color: Maybe,
            intensity: Maybe,
            range: Maybe,
            spot: Maybe,
            name: Maybe,
            extras: Maybe,
        })
    }
}

impl Copies for Light {
    fn copy(&self, alloc: Global) -> Result<Light, AllocError> {
        self.clone(alloc)
    }
}

impl FromValue for Light {
    ghost use Rattle.gltf_json_scene.specs.Lights.{light};

    ghost kind = { light };

    #[tactic(auto, unfolding(crate::specs::Lights::light))]
    fn from_value(alloc: Global, value: &Value) -> Result<Light, Error> {
        read_record!(alloc, value; Light {
            color: optional("color"),
            intensity: optional("intensity"),
            range: optional("range"),
            type_: required("type"),
            spot: optional("spot"),
            name: optional("name"),
            extras: optional("extras"),
        })
    }
}
