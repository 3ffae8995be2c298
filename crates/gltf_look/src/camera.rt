//! Cameras (glTF 2.0, section 3.10, "Cameras").

ghost use Rattle.std.specs.Prelude.{◌≡◌, ◌<◌, length};
ghost use Rattle.std.specs.Option.{option_copied};
ghost use Rattle.gltf_handles.specs.Members.{text, unknown_extensions, extension_named};

use gltf_handles::inner::Inner;
use gltf_handles::member::{meaning, unknown_extensions};
use gltf_json::boxed::lent;
use gltf_json::camera::{self, Type};
use gltf_json::{Map, Value, kinds};
use gltf_rules::{Records, Valid};

/// A camera (glTF 2.0, section 5.12, "Camera").
#[derive_where(Clone, Copy)]
#[derive_where(Debug; D)]
pub struct Camera<'a, D: Records = Valid> {
    index: usize,
    inner: Inner<'a, camera::Camera, D>,
}

/// How a camera projects (glTF 2.0, section 3.10.3, "Projection Matrices").
#[derive(Clone, Copy, Debug)]
pub enum Projection<'a> {
    /// Along parallel lines.
    Orthographic(Orthographic<'a>),
    /// Along lines that meet in one point.
    Perspective(Perspective<'a>),
}

impl<'a, D: Records> Camera<'a, D> {
    ghost use Rattle.gltf_look.specs.Cameras.{camera_handle, IsCamera, IsProjection};

    /// The camera at an index below the number of cameras.
    pub fn new(document: &'a D, index: usize) -> Self
        requires { index < length (D.root document.now).cameras.items }
        ensures { IsCamera (D.root document.now) index result }
    {
        Camera {
            index,
            inner: Inner {
                document,
                json: document.get::<kinds::Camera>(index),
            },
        }
    }

    /// The position among the cameras of the document.
    pub fn index(&self) -> usize
        ensures { result ≡ (camera_handle self.now).index }
    {
        self.index
    }

    /// The name given by the user.
    pub fn name(&self) -> Option<&'a str>
        ensures { option_copied result ≡ text (camera_handle self.now).json.name }
    {
        self.inner.json.name.as_deref()
    }

    /// How the camera projects: by the record that its `type` names.
    pub fn projection(&self) -> Projection<'a>
        ensures { IsProjection (camera_handle self.now).json result }
    {
        match meaning(self.inner.json.type_) {
            Type::Orthographic => Projection::Orthographic(Orthographic {
                json: self.inner.json.orthographic.as_ref().unwrap(),
            }),
            Type::Perspective => Projection::Perspective(Perspective {
                json: self.inner.json.perspective.as_ref().unwrap(),
            }),
        }
    }

    /// The extensions, none of which is known at a camera; None where there is no member
    /// `extensions`.
    pub fn extensions(&self) -> Option<&'a Map<String, Value>>
        ensures { option_copied result
            ≡ unknown_extensions (camera_handle self.now).json.extensions }
    {
        unknown_extensions(&self.inner.json.extensions)
    }

    /// The extension of this name.
    pub fn extension_value(&self, name: &str) -> Option<&'a Value>
        ensures { option_copied result ≡ extension_named name.now
            (unknown_extensions (camera_handle self.now).json.extensions) }
    {
        self.extensions()?.get(name)
    }

    /// What the application stores here: `extras`.
    pub fn extras(&self) -> Option<&'a Value>
        ensures { option_copied result ≡ (camera_handle self.now).json.extras }
    {
        lent(&self.inner.json.extras)
    }
}

/// An orthographic projection (glTF 2.0, section 5.13, "Camera Orthographic"). Its numbers are lent
/// as they stand, of any kind.
#[derive(Clone, Copy, Debug)]
pub struct Orthographic<'a> {
    json: &'a camera::Orthographic,
}

impl<'a> Orthographic<'a> {
    ghost use Rattle.gltf_look.specs.Cameras.{orthographic_record};

    /// Half the width of what is seen: `xmag`.
    pub fn xmag(&self) -> Option<&'a Value>
        ensures { option_copied result ≡ (orthographic_record self.now).xmag }
    {
        self.json.xmag.as_ref()
    }

    /// Half the height of what is seen: `ymag`.
    pub fn ymag(&self) -> Option<&'a Value>
        ensures { option_copied result ≡ (orthographic_record self.now).ymag }
    {
        self.json.ymag.as_ref()
    }

    /// The distance to the far clipping plane: `zfar`.
    pub fn zfar(&self) -> Option<&'a Value>
        ensures { option_copied result ≡ (orthographic_record self.now).zfar }
    {
        self.json.zfar.as_ref()
    }

    /// The distance to the near clipping plane: `znear`.
    pub fn znear(&self) -> Option<&'a Value>
        ensures { option_copied result ≡ (orthographic_record self.now).znear }
    {
        self.json.znear.as_ref()
    }

    /// The extensions, none of which is known here; None where there is no member `extensions`.
    pub fn extensions(&self) -> Option<&'a Map<String, Value>>
        ensures { option_copied result
            ≡ unknown_extensions (orthographic_record self.now).extensions }
    {
        unknown_extensions(&self.json.extensions)
    }

    /// The extension of this name.
    pub fn extension_value(&self, name: &str) -> Option<&'a Value>
        ensures { option_copied result ≡ extension_named name.now
            (unknown_extensions (orthographic_record self.now).extensions) }
    {
        self.extensions()?.get(name)
    }

    /// What the application stores here: `extras`.
    pub fn extras(&self) -> Option<&'a Value>
        ensures { option_copied result ≡ (orthographic_record self.now).extras }
    {
        lent(&self.json.extras)
    }
}

/// A perspective projection (glTF 2.0, section 5.14, "Camera Perspective"). Its numbers are lent as
/// they stand, of any kind.
#[derive(Clone, Copy, Debug)]
pub struct Perspective<'a> {
    json: &'a camera::Perspective,
}

impl<'a> Perspective<'a> {
    ghost use Rattle.gltf_look.specs.Cameras.{perspective_record};

    /// The width of the view by its height: `aspectRatio`.
    pub fn aspect_ratio(&self) -> Option<&'a Value>
        ensures { option_copied result ≡ (perspective_record self.now).aspect_ratio }
    {
        self.json.aspect_ratio.as_ref()
    }

    /// The angle of view from bottom to top, in radians: `yfov`.
    pub fn yfov(&self) -> Option<&'a Value>
        ensures { option_copied result ≡ (perspective_record self.now).yfov }
    {
        self.json.yfov.as_ref()
    }

    /// The distance to the far clipping plane: `zfar`. Without it the projection is infinite.
    pub fn zfar(&self) -> Option<&'a Value>
        ensures { option_copied result ≡ (perspective_record self.now).zfar }
    {
        self.json.zfar.as_ref()
    }

    /// The distance to the near clipping plane: `znear`.
    pub fn znear(&self) -> Option<&'a Value>
        ensures { option_copied result ≡ (perspective_record self.now).znear }
    {
        self.json.znear.as_ref()
    }

    /// The extensions, none of which is known here; None where there is no member `extensions`.
    pub fn extensions(&self) -> Option<&'a Map<String, Value>>
        ensures { option_copied result
            ≡ unknown_extensions (perspective_record self.now).extensions }
    {
        unknown_extensions(&self.json.extensions)
    }

    /// The extension of this name.
    pub fn extension_value(&self, name: &str) -> Option<&'a Value>
        ensures { option_copied result ≡ extension_named name.now
            (unknown_extensions (perspective_record self.now).extensions) }
    {
        self.extensions()?.get(name)
    }

    /// What the application stores here: `extras`.
    pub fn extras(&self) -> Option<&'a Value>
        ensures { option_copied result ≡ (perspective_record self.now).extras }
    {
        lent(&self.json.extras)
    }
}
