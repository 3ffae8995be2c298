//! Cameras (glTF 2.0, section 3.10, "Cameras").
ghost use Rattle.std.specs.Prelude.{IfOk};
ghost use Rattle.gltf_json_record.specs.Copy.{IsCopy};

use gltf_json_record::boxed::Boxed;
use gltf_json_record::copy::Copies;
use gltf_json_record::error::Error;
use gltf_json_record::extensions::Others;
use gltf_json_record::extras::Extras;
use gltf_json_record::lent::Maybe;
use gltf_json_record::read::FromValue;
use gltf_json_record::validation::{Checked, Code};
use gltf_json_record::{copy_record, read_record};
use serde_json::Value;
use std::alloc::{AllocError, Global};

/// How a camera projects (glTF 2.0, section 5.12.3, `camera.type`).
#[derive(Clone, Copy, Debug, PartialEq, Eq)]
pub enum Type {
    /// The record `perspective` says how: the code `perspective`.
    Perspective,
    /// The record `orthographic` says how: the code `orthographic`.
    Orthographic,
}

impl Type {
    ghost use Rattle.std.specs.Prelude.{◌≡◌, Some};
    ghost use Rattle.serde_json.specs.Data.{string};
    ghost use Rattle.gltf_json_record.specs.declared.validation.Checked.TheVariants.{Valid};
    ghost use Rattle.gltf_json_scene.specs.Codes.{camera_type};

    /// The string that stands for it in JSON (glTF 2.0, section 5.12.3, `camera.type`), as
    /// `perspective`.
    pub fn as_str(&self) -> &'static str
        ensures { camera_type (string result.now) ≡ Some (Valid self.now) }
    {
        match self {
            Type::Perspective => "perspective",
            Type::Orthographic => "orthographic",
        }
    }
}

impl Code for Type {
    ghost use Rattle.gltf_json_scene.specs.Codes.{camera_type};

    ghost reads = { camera_type };

    fn read(value: &Value) -> Option<Checked<Type>> {
        Some(match value.as_str()? {
            "perspective" => Checked::Valid(Type::Perspective),
            "orthographic" => Checked::Valid(Type::Orthographic),
            _ => Checked::Invalid,
        })
    }
}

/// An orthographic projection (glTF 2.0, section 5.13, "Camera Orthographic"). Its numbers are kept
/// as they stand, of any kind.
#[derive(Debug, Drop)]
pub struct Orthographic {
    /// Half the width of what is seen: `xmag`.
    pub xmag: Option<Value>,
    /// Half the height of what is seen: `ymag`.
    pub ymag: Option<Value>,
    /// The distance to the far clipping plane: `zfar`.
    pub zfar: Option<Value>,
    /// The distance to the near clipping plane: `znear`.
    pub znear: Option<Value>,
    /// The extensions: `extensions`. None is known here.
    pub extensions: Option<Boxed<Others>>,
    /// What the application stores here: `extras`.
    pub extras: Extras,
}

impl Orthographic {
    ghost use Rattle.gltf_json_scene.specs.Cameras.{orthographic};

    /// A copy of the record, which shows what this one shows.
    #[tactic(auto, unfolding(crate::specs::Cameras::orthographic))]
    pub fn clone(&self, alloc: Global) -> Result<Orthographic, AllocError>
        ensures { IfOk result (IsCopy orthographic self.now) }
    {
        copy_record!(self, alloc; Orthographic {} with {
            xmag: Maybe,
            ymag: Maybe,
            zfar: Maybe,
            znear: Maybe,
            extensions: Maybe,
            extras: Maybe,
        })
    }
}

impl Copies for Orthographic {
    fn copy(&self, alloc: Global) -> Result<Orthographic, AllocError> {
        self.clone(alloc)
    }
}

impl FromValue for Orthographic {
    ghost use Rattle.gltf_json_scene.specs.Cameras.{orthographic};

    ghost kind = { orthographic };

    #[tactic(auto, unfolding(crate::specs::Cameras::orthographic))]
    fn from_value(alloc: Global, value: &Value) -> Result<Orthographic, Error> {
        read_record!(alloc, value; Orthographic {
            xmag: optional("xmag"),
            ymag: optional("ymag"),
            zfar: optional("zfar"),
            znear: optional("znear"),
            extensions: optional("extensions"),
            extras: optional("extras"),
        })
    }
}

/// A perspective projection (glTF 2.0, section 5.14, "Camera Perspective"). Its numbers are kept as
/// they stand, of any kind.
#[derive(Debug, Drop)]
pub struct Perspective {
    /// The width of the view by its height: `aspectRatio`.
    pub aspect_ratio: Option<Value>,
    /// The angle of view from bottom to top, in radians: `yfov`.
    pub yfov: Option<Value>,
    /// The distance to the far clipping plane: `zfar`. Without it the projection is infinite.
    pub zfar: Option<Value>,
    /// The distance to the near clipping plane: `znear`.
    pub znear: Option<Value>,
    /// The extensions: `extensions`. None is known here.
    pub extensions: Option<Boxed<Others>>,
    /// What the application stores here: `extras`.
    pub extras: Extras,
}

impl Perspective {
    ghost use Rattle.gltf_json_scene.specs.Cameras.{perspective};

    /// A copy of the record, which shows what this one shows.
    #[tactic(auto, unfolding(crate::specs::Cameras::perspective))]
    pub fn clone(&self, alloc: Global) -> Result<Perspective, AllocError>
        ensures { IfOk result (IsCopy perspective self.now) }
    {
        copy_record!(self, alloc; Perspective {} with {
            aspect_ratio: Maybe,
            yfov: Maybe,
            zfar: Maybe,
            znear: Maybe,
            extensions: Maybe,
            extras: Maybe,
        })
    }
}

impl Copies for Perspective {
    fn copy(&self, alloc: Global) -> Result<Perspective, AllocError> {
        self.clone(alloc)
    }
}

impl FromValue for Perspective {
    ghost use Rattle.gltf_json_scene.specs.Cameras.{perspective};

    ghost kind = { perspective };

    #[tactic(auto, unfolding(crate::specs::Cameras::perspective))]
    fn from_value(alloc: Global, value: &Value) -> Result<Perspective, Error> {
        read_record!(alloc, value; Perspective {
            aspect_ratio: optional("aspectRatio"),
            yfov: optional("yfov"),
            zfar: optional("zfar"),
            znear: optional("znear"),
            extensions: optional("extensions"),
            extras: optional("extras"),
        })
    }
}

/// A camera (glTF 2.0, section 5.12, "Camera").
#[derive(Debug, Drop)]
pub struct Camera {
    /// How the camera projects: `type`.
    pub type_: Checked<Type>,
    /// The orthographic projection: `orthographic`.
    pub orthographic: Option<Orthographic>,
    /// The perspective projection: `perspective`.
    pub perspective: Option<Perspective>,
    /// A name given by the user: `name`.
    pub name: Option<String>,
    /// The extensions: `extensions`. None is known here.
    pub extensions: Option<Boxed<Others>>,
    /// What the application stores here: `extras`.
    pub extras: Extras,
}

impl Camera {
    ghost use Rattle.gltf_json_scene.specs.Cameras.{camera};

    /// A copy of the record, which shows what this one shows.
    #[tactic(auto, unfolding(crate::specs::Cameras::camera))]
    pub fn clone(&self, alloc: Global) -> Result<Camera, AllocError>
        ensures { IfOk result (IsCopy camera self.now) }
    {
        copy_record!(self, alloc; Camera { type_, } with {
            orthographic: Maybe,
            perspective: Maybe,
            name: Maybe,
            extensions: Maybe,
            extras: Maybe,
        })
    }
}

impl Copies for Camera {
    fn copy(&self, alloc: Global) -> Result<Camera, AllocError> {
        self.clone(alloc)
    }
}

impl FromValue for Camera {
    ghost use Rattle.gltf_json_scene.specs.Cameras.{camera};

    ghost kind = { camera };

    #[tactic(auto, unfolding(crate::specs::Cameras::camera))]
    fn from_value(alloc: Global, value: &Value) -> Result<Camera, Error> {
        read_record!(alloc, value; Camera {
            type_: required("type"),
            orthographic: optional("orthographic"),
            perspective: optional("perspective"),
            name: optional("name"),
            extensions: optional("extensions"),
            extras: optional("extras"),
        })
    }
}
