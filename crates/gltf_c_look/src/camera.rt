//! Cameras (glTF 2.0, section 3.10).
ghost use Rattle.std.specs.Prelude.{◌≡◌};
ghost use Rattle.std.specs.Option.{option_copied};
ghost use Rattle.gltf_c_look.specs.Cameras.{shown_camera, camera_of, orthographic_of};
ghost use Rattle.gltf_c_look.specs.Cameras.{perspective_of, is_orthographic, empty_camera};

use crate::number::{NO_NUMBER, number_else};
use gltf_json::Root;
use gltf_json::camera::{Camera, Orthographic, Perspective, Type};
use gltf_json_record::validation::Checked;

/// What a camera is. C declares the same struct.
#[repr(C)]
#[derive(Clone, Copy, Drop)]
pub struct GltfCamera {
    /// 1 of an orthographic camera, 0 of a perspective one.
    pub orthographic: u32,
    /// 0.
    pub reserved_word: u32,
    /// The distance to the near clipping plane.
    pub znear: f64,
    /// The distance to the far one; 0 where there is none.
    pub zfar: f64,
    /// Half the width of an orthographic camera, else 0.
    pub xmag: f64,
    /// Half the height of an orthographic camera, else 0.
    pub ymag: f64,
    /// The vertical field of view of a perspective camera in radians, else 0.
    pub yfov: f64,
    /// Width by height of a perspective camera; 0 where it is that of the window.
    pub aspect_ratio: f64,
    /// 0.
    pub reserved: [usize; 2],
}

/// What the camera at an index is.
pub fn camera(root: &Root, index: usize) -> Option<GltfCamera>
    ensures { result ≡ camera_of index root.now }
{
    Some(shown_camera(root.cameras.get(index)?))
}

fn shown_camera(camera: &Camera) -> GltfCamera
    ensures { result ≡ shown_camera camera.now }
{
    if is_orthographic(camera.type_) {
        orthographic_of(camera.orthographic.as_ref())
    } else {
        perspective_of(camera.perspective.as_ref())
    }
}

fn is_orthographic(kind: Checked<Type>) -> bool
    ensures { result ≡ is_orthographic kind }
{
    match kind {
        Checked::Valid(Type::Orthographic) => true,
        Checked::Valid(Type::Perspective) | Checked::Invalid => false,
    }
}

/// An orthographic camera (glTF 2.0, section 5.13).
fn orthographic_of(stated: Option<&Orthographic>) -> GltfCamera
    ensures { result ≡ orthographic_of (option_copied stated.entry) }
{
    match stated {
        Some(it) => GltfCamera {
            orthographic: 1,
            reserved_word: 0,
            znear: number_else(it.znear.as_ref(), NO_NUMBER),
            zfar: number_else(it.zfar.as_ref(), NO_NUMBER),
            xmag: number_else(it.xmag.as_ref(), NO_NUMBER),
            ymag: number_else(it.ymag.as_ref(), NO_NUMBER),
            yfov: NO_NUMBER,
            aspect_ratio: NO_NUMBER,
            reserved: [0; 2],
        },
        None => empty(1),
    }
}

/// A perspective camera (glTF 2.0, section 5.14).
fn perspective_of(stated: Option<&Perspective>) -> GltfCamera
    ensures { result ≡ perspective_of (option_copied stated.entry) }
{
    match stated {
        Some(it) => GltfCamera {
            orthographic: 0,
            reserved_word: 0,
            znear: number_else(it.znear.as_ref(), NO_NUMBER),
            zfar: number_else(it.zfar.as_ref(), NO_NUMBER),
            xmag: NO_NUMBER,
            ymag: NO_NUMBER,
            yfov: number_else(it.yfov.as_ref(), NO_NUMBER),
            aspect_ratio: number_else(it.aspect_ratio.as_ref(), NO_NUMBER),
            reserved: [0; 2],
        },
        None => empty(0),
    }
}

/// A camera without numbers.
fn empty(orthographic: u32) -> GltfCamera
    ensures { result ≡ empty_camera orthographic }
{
    GltfCamera {
        orthographic,
        reserved_word: 0,
        znear: NO_NUMBER,
        zfar: NO_NUMBER,
        xmag: NO_NUMBER,
        ymag: NO_NUMBER,
        yfov: NO_NUMBER,
        aspect_ratio: NO_NUMBER,
        reserved: [0; 2],
    }
}
