//! The numbers of cameras (glTF 2.0, section 3.10, "Cameras").

ghost use Rattle.gltf_look.specs.Cameras.{orthographic_record, perspective_record};
ghost use Rattle.gltf_numbers.specs.Cameras.{orthographic_numbers, perspective_numbers};

use crate::of_handles::Numbers;
use crate::value::{number, number_if};
use gltf_look::camera as handles;

/// The numbers of an orthographic projection (glTF 2.0, section 5.13, "Camera Orthographic"). The
/// standard requires each of them: without one there are no numbers.
#[derive(Clone, Copy, Debug)]
pub struct Orthographic {
    /// Half the width of what is seen, in metres: `xmag`.
    pub xmag: f64,
    /// Half the height of what is seen, in metres: `ymag`.
    pub ymag: f64,
    /// The distance to the far clipping plane, in metres: `zfar`.
    pub zfar: f64,
    /// The distance to the near clipping plane, in metres: `znear`.
    pub znear: f64,
}

impl Numbers for handles::Orthographic<'_> {
    type Numbers = Orthographic;

    ghost of = { λ o. orthographic_numbers (orthographic_record o) };

    fn numbers(&self) -> Option<Orthographic> {
        Some(Orthographic {
            xmag: number(self.xmag()?)?,
            ymag: number(self.ymag()?)?,
            zfar: number(self.zfar()?)?,
            znear: number(self.znear()?)?,
        })
    }
}

/// The numbers of a perspective projection (glTF 2.0, section 5.14, "Camera Perspective"). The
/// standard requires `yfov` and `znear`: without one of these there are no numbers.
#[derive(Clone, Copy, Debug)]
pub struct Perspective {
    /// The width of the view by its height: `aspectRatio`; None where it is absent, which means
    /// that of the area that is drawn on.
    pub aspect_ratio: Option<f64>,
    /// The angle of view from bottom to top, in radians: `yfov`.
    pub yfov: f64,
    /// The distance to the far clipping plane, in metres: `zfar`; None where it is absent, which
    /// means an infinite projection.
    pub zfar: Option<f64>,
    /// The distance to the near clipping plane, in metres: `znear`.
    pub znear: f64,
}

impl Numbers for handles::Perspective<'_> {
    type Numbers = Perspective;

    ghost of = { λ p. perspective_numbers (perspective_record p) };

    fn numbers(&self) -> Option<Perspective> {
        Some(Perspective {
            aspect_ratio: number_if(self.aspect_ratio())?,
            yfov: number(self.yfov()?)?,
            zfar: number_if(self.zfar())?,
            znear: number(self.znear()?)?,
        })
    }
}
