//! Calls for extensions that the loader keeps as JSON. `BadExtension` where one does not fit its
//! table, or breaks its rules.
ghost use Rattle.std.specs.Prelude.{◌≡◌};
ghost use Rattle.gltf_c_extensions.specs.Materials.{IsClearcoat, IsSheen, IsIridescence};
ghost use Rattle.gltf_c_extensions.specs.Materials.{IsAnisotropy, IsDispersion};
ghost use Rattle.gltf_c_extensions.specs.Materials.{IsDiffuseTransmission};
ghost use Rattle.gltf_c_extensions.specs.Metadata.{IsPacket};
ghost use Rattle.gltf_c_extensions.specs.Nodes.{IsInstancing, IsVisibility};
ghost use Rattle.gltf_c_extensions.specs.Textures.{IsBasisu, IsWebp};
ghost use Rattle.gltf_c_extensions.specs.Views.{IsMeshopt};
ghost use Rattle.gltf_c_handle.specs.Calls.{GivesRead, said};

use crate::at::At;
use gltf_c_extensions::material::{
    GltfAnisotropy, GltfClearcoat, GltfDiffuseTransmission, GltfDispersion, GltfIridescence,
    GltfSheen,
};
use gltf_c_extensions::node::{GltfInstancing, GltfVisibility};
use gltf_c_extensions::reading::Missing;
use gltf_c_extensions::texture::GltfTextureSource;
use gltf_c_extensions::view::GltfMeshopt;
use gltf_c_extensions::{material, metadata, node, texture, view};
use gltf_c_handle::ask::{Read, answer_read};
use gltf_c_handle::handle::GltfFile;
use gltf_c_open::file::File;
use std::alloc::Global;

impl Read<GltfClearcoat> for At {
    ghost answers = { λ at. said (IsClearcoat at.index) };

    fn read(&self, alloc: Global, file: &File) -> Result<GltfClearcoat, Missing> {
        material::clearcoat(alloc, file.document.as_json(), self.index)
    }
}

/// The clear layer above the material at an index (`KHR_materials_clearcoat`).
pub fn clearcoat_info(
    alloc: Global,
    file: &mut GltfFile,
    index: usize,
    out: &mut GltfClearcoat,
) -> u32
    ensures same { file.new.value ≡ file.old.value }
    ensures given { GivesRead (said (IsClearcoat index)) file.old.value result out.old out.new }
{
    answer_read(alloc, file, &At { index }, out)
}

impl Read<GltfSheen> for At {
    ghost answers = { λ at. said (IsSheen at.index) };

    fn read(&self, alloc: Global, file: &File) -> Result<GltfSheen, Missing> {
        material::sheen(alloc, file.document.as_json(), self.index)
    }
}

/// The soft reflection of the material at an index (`KHR_materials_sheen`).
pub fn sheen_info(alloc: Global, file: &mut GltfFile, index: usize, out: &mut GltfSheen) -> u32
    ensures same { file.new.value ≡ file.old.value }
    ensures given { GivesRead (said (IsSheen index)) file.old.value result out.old out.new }
{
    answer_read(alloc, file, &At { index }, out)
}

impl Read<GltfIridescence> for At {
    ghost answers = { λ at. said (IsIridescence at.index) };

    fn read(&self, alloc: Global, file: &File) -> Result<GltfIridescence, Missing> {
        material::iridescence(alloc, file.document.as_json(), self.index)
    }
}

/// The thin film on the material at an index (`KHR_materials_iridescence`).
pub fn iridescence_info(
    alloc: Global,
    file: &mut GltfFile,
    index: usize,
    out: &mut GltfIridescence,
) -> u32
    ensures same { file.new.value ≡ file.old.value }
    ensures given { GivesRead (said (IsIridescence index)) file.old.value result out.old out.new }
{
    answer_read(alloc, file, &At { index }, out)
}

impl Read<GltfAnisotropy> for At {
    ghost answers = { λ at. said (IsAnisotropy at.index) };

    fn read(&self, alloc: Global, file: &File) -> Result<GltfAnisotropy, Missing> {
        material::anisotropy(alloc, file.document.as_json(), self.index)
    }
}

/// How the reflections of the material at an index are stretched
/// (`KHR_materials_anisotropy`).
pub fn anisotropy_info(
    alloc: Global,
    file: &mut GltfFile,
    index: usize,
    out: &mut GltfAnisotropy,
) -> u32
    ensures same { file.new.value ≡ file.old.value }
    ensures given { GivesRead (said (IsAnisotropy index)) file.old.value result out.old out.new }
{
    answer_read(alloc, file, &At { index }, out)
}

impl Read<GltfDispersion> for At {
    ghost answers = { λ at. said (IsDispersion at.index) };

    fn read(&self, alloc: Global, file: &File) -> Result<GltfDispersion, Missing> {
        material::dispersion(alloc, file.document.as_json(), self.index)
    }
}

/// How the material at an index parts the colours of light (`KHR_materials_dispersion`).
pub fn dispersion_info(
    alloc: Global,
    file: &mut GltfFile,
    index: usize,
    out: &mut GltfDispersion,
) -> u32
    ensures same { file.new.value ≡ file.old.value }
    ensures given { GivesRead (said (IsDispersion index)) file.old.value result out.old out.new }
{
    answer_read(alloc, file, &At { index }, out)
}

impl Read<GltfDiffuseTransmission> for At {
    ghost answers = { λ at. said (IsDiffuseTransmission at.index) };

    fn read(&self, alloc: Global, file: &File) -> Result<GltfDiffuseTransmission, Missing> {
        material::diffuse_transmission(alloc, file.document.as_json(), self.index)
    }
}

/// The light that the material at an index lets through and scatters
/// (`KHR_materials_diffuse_transmission`).
pub fn diffuse_transmission_info(
    alloc: Global,
    file: &mut GltfFile,
    index: usize,
    out: &mut GltfDiffuseTransmission,
) -> u32
    ensures same { file.new.value ≡ file.old.value }
    ensures given { GivesRead (said (IsDiffuseTransmission index)) file.old.value result
        out.old out.new }
{
    answer_read(alloc, file, &At { index }, out)
}

impl Read<GltfInstancing> for At {
    ghost answers = { λ at. said (IsInstancing at.index) };

    fn read(&self, alloc: Global, file: &File) -> Result<GltfInstancing, Missing> {
        node::instancing(alloc, file.document.as_json(), self.index)
    }
}

/// The instances of the mesh of the node at an index (`EXT_mesh_gpu_instancing`).
pub fn instancing_info(
    alloc: Global,
    file: &mut GltfFile,
    index: usize,
    out: &mut GltfInstancing,
) -> u32
    ensures same { file.new.value ≡ file.old.value }
    ensures given { GivesRead (said (IsInstancing index)) file.old.value result out.old out.new }
{
    answer_read(alloc, file, &At { index }, out)
}

impl Read<GltfVisibility> for At {
    ghost answers = { λ at. said (IsVisibility at.index) };

    fn read(&self, alloc: Global, file: &File) -> Result<GltfVisibility, Missing> {
        node::visibility(alloc, file.document.as_json(), self.index)
    }
}

/// Whether the node at an index is shown (`KHR_node_visibility`).
pub fn visibility_info(
    alloc: Global,
    file: &mut GltfFile,
    index: usize,
    out: &mut GltfVisibility,
) -> u32
    ensures same { file.new.value ≡ file.old.value }
    ensures given { GivesRead (said (IsVisibility index)) file.old.value result out.old out.new }
{
    answer_read(alloc, file, &At { index }, out)
}

impl Read<GltfMeshopt> for At {
    ghost answers = { λ at. said (IsMeshopt at.index) };

    fn read(&self, alloc: Global, file: &File) -> Result<GltfMeshopt, Missing> {
        view::meshopt(alloc, file.document.as_json(), self.index)
    }
}

/// How the view at an index is compressed (`EXT_meshopt_compression`).
pub fn meshopt_info(alloc: Global, file: &mut GltfFile, index: usize, out: &mut GltfMeshopt) -> u32
    ensures same { file.new.value ≡ file.old.value }
    ensures given { GivesRead (said (IsMeshopt index)) file.old.value result out.old out.new }
{
    answer_read(alloc, file, &At { index }, out)
}

/// The image of a texture in a format of Basis Universal.
#[derive(Clone, Copy)]
struct Basisu {
    index: usize,
}

impl Read<GltfTextureSource> for Basisu {
    ghost answers = { λ it. said (IsBasisu it.index) };

    fn read(&self, alloc: Global, file: &File) -> Result<GltfTextureSource, Missing> {
        texture::basisu(alloc, file.document.as_json(), self.index)
    }
}

/// The image of the texture at an index in a format of Basis Universal
/// (`KHR_texture_basisu`).
pub fn basisu_info(
    alloc: Global,
    file: &mut GltfFile,
    index: usize,
    out: &mut GltfTextureSource,
) -> u32
    ensures same { file.new.value ≡ file.old.value }
    ensures given { GivesRead (said (IsBasisu index)) file.old.value result out.old out.new }
{
    answer_read(alloc, file, &Basisu { index }, out)
}

/// The image of a texture in the format WebP.
#[derive(Clone, Copy)]
struct Webp {
    index: usize,
}

impl Read<GltfTextureSource> for Webp {
    ghost answers = { λ it. said (IsWebp it.index) };

    fn read(&self, alloc: Global, file: &File) -> Result<GltfTextureSource, Missing> {
        texture::webp(alloc, file.document.as_json(), self.index)
    }
}

/// The image of the texture at an index in the format WebP (`EXT_texture_webp`).
pub fn webp_info(
    alloc: Global,
    file: &mut GltfFile,
    index: usize,
    out: &mut GltfTextureSource,
) -> u32
    ensures same { file.new.value ≡ file.old.value }
    ensures given { GivesRead (said (IsWebp index)) file.old.value result out.old out.new }
{
    answer_read(alloc, file, &Webp { index }, out)
}

/// The packet of metadata of a record.
#[derive(Clone, Copy)]
struct PacketOf {
    kind: u32,
    index: usize,
    part: usize,
}

impl Read<usize> for PacketOf {
    ghost answers = { λ it. said (IsPacket it.kind it.index it.part) };

    fn read(&self, alloc: Global, file: &File) -> Result<usize, Missing> {
        let root = file.document.as_json();
        metadata::xmp_packet(alloc, root, self.kind, self.index, self.part)
    }
}

/// The packet of metadata that describes the record of a kind at an index (`KHR_xmp_json_ld`).
pub fn xmp_packet(
    alloc: Global,
    file: &mut GltfFile,
    kind: u32,
    index: usize,
    part: usize,
    packet: &mut usize,
) -> u32
    ensures same { file.new.value ≡ file.old.value }
    ensures given { GivesRead (said (IsPacket kind index part)) file.old.value result
        packet.old packet.new }
{
    answer_read(alloc, file, &PacketOf { kind, index, part }, packet)
}
