//! Calls for materials, textures, samplers, cameras and lights.
ghost use Rattle.std.specs.Prelude.{◌≡◌};
ghost use Rattle.gltf_c_look.specs.Cameras.{camera_of};
ghost use Rattle.gltf_c_look.specs.Lights.{light_of};
ghost use Rattle.gltf_c_look.specs.Materials.{material_of};
ghost use Rattle.gltf_c_look.specs.Textures.{texture_of, sampler_of};
ghost use Rattle.gltf_c_handle.specs.Calls.{Gives, shown};

use crate::at::At;
use gltf_c_handle::ask::{Ask, Write, answer, answer_in_place};
use gltf_c_handle::handle::GltfFile;
use gltf_c_look::camera::GltfCamera;
use gltf_c_look::light::GltfLight;
use gltf_c_look::material::{GltfMaterial, write_material};
use gltf_c_look::texture::{GltfSampler, GltfTexture};
use gltf_c_look::{camera, light, texture};
use gltf_c_open::file::File;
use std::alloc::Global;

impl Write<GltfMaterial> for At {
    ghost asked = { λ at. shown (material_of at.index) };

    fn write(&self, file: &File, out: &mut GltfMaterial) -> bool {
        write_material(file.document.as_json(), self.index, out)
    }
}

/// What the material at an index is (glTF 2.0, section 5.19); at the greatest number, that of a
/// primitive that names none (section 3.9.6).
pub fn material_info(
    alloc: Global,
    file: &mut GltfFile,
    index: usize,
    out: &mut GltfMaterial,
) -> u32
    ensures same { file.new.value ≡ file.old.value }
    ensures given { Gives (shown (material_of index)) file.old.value result out.old out.new }
{
    answer_in_place(alloc, file, &At { index }, out)
}

impl Ask<GltfTexture> for At {
    ghost asked = { λ at. shown (texture_of at.index) };

    fn ask(&self, file: &File) -> Option<GltfTexture> {
        texture::texture(file.document.as_json(), self.index)
    }
}

/// What the texture at an index is, and how it is sampled (section 5.29).
pub fn texture_info(alloc: Global, file: &mut GltfFile, index: usize, out: &mut GltfTexture) -> u32
    ensures same { file.new.value ≡ file.old.value }
    ensures given { Gives (shown (texture_of index)) file.old.value result out.old out.new }
{
    answer(alloc, file, &At { index }, out)
}

impl Ask<GltfSampler> for At {
    ghost asked = { λ at. shown (sampler_of at.index) };

    fn ask(&self, file: &File) -> Option<GltfSampler> {
        texture::sampler(file.document.as_json(), self.index)
    }
}

/// What the sampler at an index is (section 5.26).
pub fn sampler_info(alloc: Global, file: &mut GltfFile, index: usize, out: &mut GltfSampler) -> u32
    ensures same { file.new.value ≡ file.old.value }
    ensures given { Gives (shown (sampler_of index)) file.old.value result out.old out.new }
{
    answer(alloc, file, &At { index }, out)
}

impl Ask<GltfCamera> for At {
    ghost asked = { λ at. shown (camera_of at.index) };

    fn ask(&self, file: &File) -> Option<GltfCamera> {
        camera::camera(file.document.as_json(), self.index)
    }
}

/// What the camera at an index is (section 5.12).
pub fn camera_info(alloc: Global, file: &mut GltfFile, index: usize, out: &mut GltfCamera) -> u32
    ensures same { file.new.value ≡ file.old.value }
    ensures given { Gives (shown (camera_of index)) file.old.value result out.old out.new }
{
    answer(alloc, file, &At { index }, out)
}

impl Ask<GltfLight> for At {
    ghost asked = { λ at. shown (light_of at.index) };

    fn ask(&self, file: &File) -> Option<GltfLight> {
        light::light(file.document.as_json(), self.index)
    }
}

/// What the light at an index is (`KHR_lights_punctual`).
pub fn light_info(alloc: Global, file: &mut GltfFile, index: usize, out: &mut GltfLight) -> u32
    ensures same { file.new.value ≡ file.old.value }
    ensures given { Gives (shown (light_of index)) file.old.value result out.old out.new }
{
    answer(alloc, file, &At { index }, out)
}
