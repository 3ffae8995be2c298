//! The loader as a library for C: one export for each call of `gltf_c_handle` and
//! `gltf_c_calls`, with its contract. `c/gltf_shim.c` has the functions of `c/gltf.h` over these,
//! which take the file behind a pointer as it is there; the call of that name in these crates says
//! what it returns and when.
//!
//! No function here asks anything of its arguments: what a caller has to keep is what C cannot say
//! in a type, and stands in the header.
#![tactic(auto)]

ghost use Rattle.std.specs.Prelude.{◌≡◌, None};
ghost use Rattle.gltf_c_calls.specs.Calls.{HasCount, default_scene};
ghost use Rattle.gltf_c_calls.specs.Exported.{buffer_of, accessor_of, image_of, numbers_of};
ghost use Rattle.gltf_c_calls.specs.Exported.{buffer_place, view_place, accessor_place};
ghost use Rattle.gltf_c_calls.specs.Exported.{IsClearcoat, IsSheen, IsIridescence, IsAnisotropy};
ghost use Rattle.gltf_c_calls.specs.Exported.{IsDispersion, IsDiffuseTransmission, IsPacket};
ghost use Rattle.gltf_c_calls.specs.Exported.{IsInstancing, IsVisibility, IsBasisu, IsWebp};
ghost use Rattle.gltf_c_calls.specs.Exported.{IsMeshopt, camera_of, light_of, material_of, text_of};
ghost use Rattle.gltf_c_calls.specs.Exported.{texture_of, sampler_of, view_of, shown_animation_of};
ghost use Rattle.gltf_c_calls.specs.Exported.{shown_channel_of, shown_attribute_of};
ghost use Rattle.gltf_c_calls.specs.Exported.{found_attribute_of, attribute_name_of, shown_mesh_of};
ghost use Rattle.gltf_c_calls.specs.Exported.{shown_primitive_of, variant_material_of, name_of};
ghost use Rattle.gltf_c_calls.specs.Exported.{shown_node_of, shown_scene_of, shown_skin_of};
ghost use Rattle.gltf_c_calls.specs.Exported.{node_list_of, variant_fault_of, Gives, GivesRead};
ghost use Rattle.gltf_c_calls.specs.Exported.{said, shown, IsOpened, wanted_of, IsGivenBytes};
ghost use Rattle.gltf_c_calls.specs.Rooms.{GivesText, GivesTextOr, GivesList};
ghost use Rattle.gltf_c_calls.specs.Rooms.{ReadsItems, ReadsJson};

use gltf_c_calls::gltf_c_block::{GltfBlock, into_vec};
use gltf_c_calls::gltf_c_bytes::info::{GltfAccessor, GltfBuffer, GltfImage};
use gltf_c_calls::gltf_c_bytes::place::GltfBytes;
use gltf_c_calls::gltf_c_extensions::material::{
    GltfAnisotropy, GltfClearcoat, GltfDiffuseTransmission, GltfDispersion, GltfIridescence,
    GltfSheen,
};
use gltf_c_calls::gltf_c_extensions::node::{GltfInstancing, GltfVisibility};
use gltf_c_calls::gltf_c_extensions::texture::GltfTextureSource;
use gltf_c_calls::gltf_c_extensions::view::GltfMeshopt;
use gltf_c_calls::gltf_c_fault::fault::GltfFault;
use gltf_c_calls::gltf_c_handle::handle::GltfFile;
use gltf_c_calls::gltf_c_handle::open;
use gltf_c_calls::gltf_c_look::camera::GltfCamera;
use gltf_c_calls::gltf_c_look::light::GltfLight;
use gltf_c_calls::gltf_c_look::material::GltfMaterial;
use gltf_c_calls::gltf_c_look::texture::{GltfSampler, GltfTexture};
use gltf_c_calls::gltf_c_look::view::GltfBufferView;
use gltf_c_calls::gltf_c_scene::animation::{GltfAnimation, GltfChannel};
use gltf_c_calls::gltf_c_scene::attribute::GltfAttribute;
use gltf_c_calls::gltf_c_scene::mesh::{GltfMesh, GltfPrimitive};
use gltf_c_calls::gltf_c_scene::node::{GltfNode, GltfScene};
use gltf_c_calls::gltf_c_scene::skin::GltfSkin;
use gltf_c_calls::{bytes, extension, look, room, scene};
use std::alloc::Global;
use std::borrow::CowSlice;

/// Opens a file from its bytes, with the names of extensions that the caller handles, each with a
/// zero byte after it. Of `flags` the lowest bit says that buffers of other files wait for their
/// bytes, and the next that zeros after the bytes of a buffer do not count. The others are 0, and so
/// is `reserved`.
#[unsafe(no_mangle)]
pub extern "C" fn core_open(
    alloc: Global,
    bytes: &[u8],
    names: &[u8],
    flags: u32,
    reserved: usize,
    file: &mut GltfFile,
    fault: &mut GltfFault,
) -> u32
    ensures { IsOpened (wanted_of flags reserved) names.now bytes.now result file.new.value
        fault.new }
{
    open::open(
        alloc,
        CowSlice::Borrowed(bytes),
        names,
        flags,
        reserved,
        file,
        fault,
    )
}

/// The same of a block of memory that is given up. It is freed here, or with the file.
#[unsafe(no_mangle)]
pub extern "C" fn core_open_owned(
    alloc: Global,
    block: GltfBlock,
    names: &[u8],
    flags: u32,
    reserved: usize,
    file: &mut GltfFile,
    fault: &mut GltfFault,
) -> u32
    ensures { IsOpened (wanted_of flags reserved) names.now block.bytes result file.new.value
        fault.new }
{
    let bytes = CowSlice::Owned(into_vec(alloc, block));
    open::open(alloc, bytes, names, flags, reserved, file, fault)
}

/// Gives the bytes of the buffer at an index, which waits for them.
#[unsafe(no_mangle)]
pub extern "C" fn core_give(alloc: Global, file: &mut GltfFile, index: usize, bytes: &[u8]) -> u32
    ensures { IsGivenBytes index bytes.now result file.old.value file.new.value }
{
    open::give(alloc, file, index, bytes)
}

/// Gives back all that a file took.
#[unsafe(no_mangle)]
pub extern "C" fn core_close(alloc: Global, file: &mut GltfFile)
    ensures { file.new.value ≡ None }
{
    open::close(alloc, file);
}

/// How many records of a kind there are; 0 in a closed file, and for a number that is no kind.
#[unsafe(no_mangle)]
pub extern "C" fn core_count(alloc: Global, file: &mut GltfFile, kind: u32) -> usize
    ensures same { file.new.value ≡ file.old.value }
    ensures count { HasCount file.old.value kind result }
{
    scene::count(alloc, file, kind)
}

/// The name of the record of a kind at an index.
#[unsafe(no_mangle)]
pub extern "C" fn core_name(
    alloc: Global,
    file: &mut GltfFile,
    kind: u32,
    index: usize,
    text: &mut [u8],
    length: &mut usize,
) -> u32
    ensures same { file.new.value ≡ file.old.value }
    ensures text { GivesText (shown (name_of kind index)) file.old.value result text.old text.new
        length.old length.new }
{
    room::name(alloc, file, kind, index, text, length)
}

/// Another text of the record at an index, by its number.
#[unsafe(no_mangle)]
pub extern "C" fn core_text(
    alloc: Global,
    file: &mut GltfFile,
    what: u32,
    index: usize,
    text: &mut [u8],
    length: &mut usize,
) -> u32
    ensures same { file.new.value ≡ file.old.value }
    ensures text { GivesText (shown (text_of what index)) file.old.value result text.old text.new
        length.old length.new }
{
    room::text(alloc, file, what, index, text, length)
}

/// The name of the attribute at a position of a primitive or of one of its morph targets.
#[unsafe(no_mangle)]
pub extern "C" fn core_attribute_name(
    alloc: Global,
    file: &mut GltfFile,
    mesh: usize,
    primitive: usize,
    target: usize,
    position: usize,
    text: &mut [u8],
    length: &mut usize,
) -> u32
    ensures same { file.new.value ≡ file.old.value }
    ensures text { GivesTextOr (shown (attribute_name_of mesh primitive target position))
        file.old.value result text.old text.new length.old length.new }
{
    room::attribute_name(alloc, file, mesh, primitive, target, position, text, length)
}

/// JSON text of what a record has besides: its `extras`, or an extension.
#[unsafe(no_mangle)]
pub extern "C" fn core_json(
    alloc: Global,
    file: &mut GltfFile,
    kind: u32,
    index: usize,
    part: usize,
    by_name: u32,
    extension: &[u8],
    text: &mut [u8],
    length: &mut usize,
) -> u32
    ensures same { file.new.value ≡ file.old.value }
    ensures json { ReadsJson kind index part by_name extension.now file.old.value result
        text.old text.new length.old length.new }
{
    room::json(
        alloc, file, kind, index, part, by_name, extension, text, length,
    )
}

/// A list of nodes that the record at an index holds, by the number of the list.
#[unsafe(no_mangle)]
pub extern "C" fn core_list(
    alloc: Global,
    file: &mut GltfFile,
    what: u32,
    index: usize,
    out: &mut [usize],
    count: &mut usize,
) -> u32
    ensures same { file.new.value ≡ file.old.value }
    ensures list { GivesList (shown (node_list_of what index)) file.old.value result
        out.old out.new count.old count.new }
{
    room::list(alloc, file, what, index, out, count)
}

/// A list of numbers that the record at an index holds, by the number of the list.
#[unsafe(no_mangle)]
pub extern "C" fn core_numbers(
    alloc: Global,
    file: &mut GltfFile,
    what: u32,
    index: usize,
    out: &mut [f64],
    count: &mut usize,
) -> u32
    ensures same { file.new.value ≡ file.old.value }
    ensures list { GivesList (numbers_of what index) file.old.value result
        out.old out.new count.old count.new }
{
    room::numbers(alloc, file, what, index, out, count)
}

/// The components of the items of the accessor at an index, one item after the other.
#[unsafe(no_mangle)]
pub extern "C" fn core_accessor_read(
    alloc: Global,
    file: &mut GltfFile,
    index: usize,
    out: &mut [u8],
) -> u32
    ensures same { file.new.value ≡ file.old.value }
    ensures read { ReadsItems index file.old.value result out.old out.new }
{
    room::accessor_read(alloc, file, index, out)
}

/// What the buffer at an index is (glTF 2.0, section 5.10).
#[unsafe(no_mangle)]
pub extern "C" fn core_buffer_info(
    alloc: Global,
    file: &mut GltfFile,
    index: usize,
    out: &mut GltfBuffer,
) -> u32
    ensures same { file.new.value ≡ file.old.value }
    ensures given { Gives (buffer_of index) file.old.value result out.old out.new }
{
    bytes::buffer_info(alloc, file, index, out)
}

/// What the view at an index is (section 5.11).
#[unsafe(no_mangle)]
pub extern "C" fn core_buffer_view_info(
    alloc: Global,
    file: &mut GltfFile,
    index: usize,
    out: &mut GltfBufferView,
) -> u32
    ensures same { file.new.value ≡ file.old.value }
    ensures given { Gives (shown (view_of index)) file.old.value result out.old out.new }
{
    bytes::buffer_view_info(alloc, file, index, out)
}

/// What the accessor at an index is (section 5.1).
#[unsafe(no_mangle)]
pub extern "C" fn core_accessor_info(
    alloc: Global,
    file: &mut GltfFile,
    index: usize,
    out: &mut GltfAccessor,
) -> u32
    ensures same { file.new.value ≡ file.old.value }
    ensures given { Gives (accessor_of index) file.old.value result out.old out.new }
{
    bytes::accessor_info(alloc, file, index, out)
}

/// Where the bytes of the image at an index are (section 5.18).
#[unsafe(no_mangle)]
pub extern "C" fn core_image_info(
    alloc: Global,
    file: &mut GltfFile,
    index: usize,
    out: &mut GltfImage,
) -> u32
    ensures same { file.new.value ≡ file.old.value }
    ensures given { Gives (image_of index) file.old.value result out.old out.new }
{
    bytes::image_info(alloc, file, index, out)
}

/// What the mesh at an index is (section 5.23).
#[unsafe(no_mangle)]
pub extern "C" fn core_mesh_info(
    alloc: Global,
    file: &mut GltfFile,
    index: usize,
    out: &mut GltfMesh,
) -> u32
    ensures same { file.new.value ≡ file.old.value }
    ensures given { Gives (shown (shown_mesh_of index)) file.old.value result out.old out.new }
{
    scene::mesh_info(alloc, file, index, out)
}

/// What a primitive of a mesh is (section 5.24).
#[unsafe(no_mangle)]
pub extern "C" fn core_primitive_info(
    alloc: Global,
    file: &mut GltfFile,
    mesh: usize,
    primitive: usize,
    out: &mut GltfPrimitive,
) -> u32
    ensures same { file.new.value ≡ file.old.value }
    ensures given { Gives (shown (shown_primitive_of mesh primitive))
        file.old.value result out.old out.new }
{
    scene::primitive_info(alloc, file, mesh, primitive, out)
}

/// The attribute at a position among those of a primitive; or, where `target` is not the greatest
/// number, among those of that morph target (section 3.7.2).
#[unsafe(no_mangle)]
pub extern "C" fn core_attribute_info(
    alloc: Global,
    file: &mut GltfFile,
    mesh: usize,
    primitive: usize,
    target: usize,
    position: usize,
    out: &mut GltfAttribute,
) -> u32
    ensures same { file.new.value ≡ file.old.value }
    ensures given { Gives (shown (shown_attribute_of mesh primitive target position))
        file.old.value result out.old out.new }
{
    scene::attribute_info(alloc, file, mesh, primitive, target, position, out)
}

/// What the material at an index is (section 5.19); at the greatest number, that of a primitive
/// that names none (section 3.9.6).
#[unsafe(no_mangle)]
pub extern "C" fn core_material_info(
    alloc: Global,
    file: &mut GltfFile,
    index: usize,
    out: &mut GltfMaterial,
) -> u32
    ensures same { file.new.value ≡ file.old.value }
    ensures given { Gives (shown (material_of index)) file.old.value result out.old out.new }
{
    look::material_info(alloc, file, index, out)
}

/// What the texture at an index is, and how it is sampled (section 5.29).
#[unsafe(no_mangle)]
pub extern "C" fn core_texture_info(
    alloc: Global,
    file: &mut GltfFile,
    index: usize,
    out: &mut GltfTexture,
) -> u32
    ensures same { file.new.value ≡ file.old.value }
    ensures given { Gives (shown (texture_of index)) file.old.value result out.old out.new }
{
    look::texture_info(alloc, file, index, out)
}

/// What the sampler at an index is (section 5.26).
#[unsafe(no_mangle)]
pub extern "C" fn core_sampler_info(
    alloc: Global,
    file: &mut GltfFile,
    index: usize,
    out: &mut GltfSampler,
) -> u32
    ensures same { file.new.value ≡ file.old.value }
    ensures given { Gives (shown (sampler_of index)) file.old.value result out.old out.new }
{
    look::sampler_info(alloc, file, index, out)
}

/// What the scene at an index is (section 5.27).
#[unsafe(no_mangle)]
pub extern "C" fn core_scene_info(
    alloc: Global,
    file: &mut GltfFile,
    index: usize,
    out: &mut GltfScene,
) -> u32
    ensures same { file.new.value ≡ file.old.value }
    ensures given { Gives (shown (shown_scene_of index)) file.old.value result out.old out.new }
{
    scene::scene_info(alloc, file, index, out)
}

/// What the node at an index is (section 5.25).
#[unsafe(no_mangle)]
pub extern "C" fn core_node_info(
    alloc: Global,
    file: &mut GltfFile,
    index: usize,
    out: &mut GltfNode,
) -> u32
    ensures same { file.new.value ≡ file.old.value }
    ensures given { Gives (shown (shown_node_of index)) file.old.value result out.old out.new }
{
    scene::node_info(alloc, file, index, out)
}

/// What the skin at an index is (section 5.28).
#[unsafe(no_mangle)]
pub extern "C" fn core_skin_info(
    alloc: Global,
    file: &mut GltfFile,
    index: usize,
    out: &mut GltfSkin,
) -> u32
    ensures same { file.new.value ≡ file.old.value }
    ensures given { Gives (shown (shown_skin_of index)) file.old.value result out.old out.new }
{
    scene::skin_info(alloc, file, index, out)
}

/// What the animation at an index is (section 5.5).
#[unsafe(no_mangle)]
pub extern "C" fn core_animation_info(
    alloc: Global,
    file: &mut GltfFile,
    index: usize,
    out: &mut GltfAnimation,
) -> u32
    ensures same { file.new.value ≡ file.old.value }
    ensures given { Gives (shown (shown_animation_of index)) file.old.value result out.old out.new }
{
    scene::animation_info(alloc, file, index, out)
}

/// What a channel of an animation is, with its sampler (sections 5.6 to 5.8).
#[unsafe(no_mangle)]
pub extern "C" fn core_channel_info(
    alloc: Global,
    file: &mut GltfFile,
    animation: usize,
    channel: usize,
    out: &mut GltfChannel,
) -> u32
    ensures same { file.new.value ≡ file.old.value }
    ensures given { Gives (shown (shown_channel_of animation channel))
        file.old.value result out.old out.new }
{
    scene::channel_info(alloc, file, animation, channel, out)
}

/// What the camera at an index is (section 5.12).
#[unsafe(no_mangle)]
pub extern "C" fn core_camera_info(
    alloc: Global,
    file: &mut GltfFile,
    index: usize,
    out: &mut GltfCamera,
) -> u32
    ensures same { file.new.value ≡ file.old.value }
    ensures given { Gives (shown (camera_of index)) file.old.value result out.old out.new }
{
    look::camera_info(alloc, file, index, out)
}

/// What the light at an index is (`KHR_lights_punctual`).
#[unsafe(no_mangle)]
pub extern "C" fn core_light_info(
    alloc: Global,
    file: &mut GltfFile,
    index: usize,
    out: &mut GltfLight,
) -> u32
    ensures same { file.new.value ≡ file.old.value }
    ensures given { Gives (shown (light_of index)) file.old.value result out.old out.new }
{
    look::light_info(alloc, file, index, out)
}

/// The scene to show, where the document names one (section 3.5.1).
#[unsafe(no_mangle)]
pub extern "C" fn core_default_scene(alloc: Global, file: &mut GltfFile, out: &mut usize) -> u32
    ensures same { file.new.value ≡ file.old.value }
    ensures given { Gives (shown default_scene) file.old.value result out.old out.new }
{
    scene::default_scene(alloc, file, out)
}

/// The material of a primitive under a variant, where a mapping names one
/// (`KHR_materials_variants`).
#[unsafe(no_mangle)]
pub extern "C" fn core_variant_material(
    alloc: Global,
    file: &mut GltfFile,
    mesh: usize,
    primitive: usize,
    variant: usize,
    out: &mut usize,
) -> u32
    ensures same { file.new.value ≡ file.old.value }
    ensures given { Gives (shown (variant_material_of mesh primitive variant))
        file.old.value result out.old out.new }
{
    scene::variant_material(alloc, file, mesh, primitive, variant, out)
}

/// What is wrong with the material of a primitive under a variant, where the document does not have
/// it (`KHR_materials_variants`).
#[unsafe(no_mangle)]
pub extern "C" fn core_variant_fault(
    alloc: Global,
    file: &mut GltfFile,
    mesh: usize,
    primitive: usize,
    variant: usize,
    out: &mut GltfFault,
) -> u32
    ensures same { file.new.value ≡ file.old.value }
    ensures given { Gives (shown (variant_fault_of mesh primitive variant))
        file.old.value result out.old out.new }
{
    scene::variant_fault(alloc, file, mesh, primitive, variant, out)
}

/// The accessor of an attribute, by the number of what it means and that of its set (section
/// 3.7.2.1).
#[unsafe(no_mangle)]
pub extern "C" fn core_attribute_find(
    alloc: Global,
    file: &mut GltfFile,
    mesh: usize,
    primitive: usize,
    target: usize,
    meaning: u32,
    set: u32,
    out: &mut usize,
) -> u32
    ensures same { file.new.value ≡ file.old.value }
    ensures given { Gives (shown (found_attribute_of mesh primitive target meaning set))
        file.old.value result out.old out.new }
{
    scene::attribute_find(alloc, file, mesh, primitive, target, meaning, set, out)
}

/// Where the bytes of the buffer at an index lie. `NoSuchIndex` also where it waits for
/// them.
#[unsafe(no_mangle)]
pub extern "C" fn core_buffer_bytes(
    alloc: Global,
    file: &mut GltfFile,
    index: usize,
    out: &mut GltfBytes,
) -> u32
    ensures same { file.new.value ≡ file.old.value }
    ensures given { Gives (buffer_place index) file.old.value result out.old out.new }
{
    bytes::buffer_bytes(alloc, file, index, out)
}

/// Where the bytes of the view at an index lie. `NoSuchIndex` also where it does not lie in
/// the bytes of its buffer.
#[unsafe(no_mangle)]
pub extern "C" fn core_view_bytes(
    alloc: Global,
    file: &mut GltfFile,
    index: usize,
    out: &mut GltfBytes,
) -> u32
    ensures same { file.new.value ≡ file.old.value }
    ensures given { Gives (view_place index) file.old.value result out.old out.new }
{
    bytes::view_bytes(alloc, file, index, out)
}

/// Where the items of the accessor at an index lie, from the first one to the end of the last one.
/// `NoSuchIndex` also where they have no view that holds them and lies in its buffer,
/// where one is overridden, and where one has padding inside.
#[unsafe(no_mangle)]
pub extern "C" fn core_accessor_bytes(
    alloc: Global,
    file: &mut GltfFile,
    index: usize,
    out: &mut GltfBytes,
) -> u32
    ensures same { file.new.value ≡ file.old.value }
    ensures given { Gives (accessor_place index) file.old.value result out.old out.new }
{
    bytes::accessor_bytes(alloc, file, index, out)
}

/// The clear layer above the material at an index (`KHR_materials_clearcoat`).
#[unsafe(no_mangle)]
pub extern "C" fn core_clearcoat_info(
    alloc: Global,
    file: &mut GltfFile,
    index: usize,
    out: &mut GltfClearcoat,
) -> u32
    ensures same { file.new.value ≡ file.old.value }
    ensures given { GivesRead (said (IsClearcoat index)) file.old.value result out.old out.new }
{
    extension::clearcoat_info(alloc, file, index, out)
}

/// The soft reflection of the material at an index (`KHR_materials_sheen`).
#[unsafe(no_mangle)]
pub extern "C" fn core_sheen_info(
    alloc: Global,
    file: &mut GltfFile,
    index: usize,
    out: &mut GltfSheen,
) -> u32
    ensures same { file.new.value ≡ file.old.value }
    ensures given { GivesRead (said (IsSheen index)) file.old.value result out.old out.new }
{
    extension::sheen_info(alloc, file, index, out)
}

/// The thin film on the material at an index (`KHR_materials_iridescence`).
#[unsafe(no_mangle)]
pub extern "C" fn core_iridescence_info(
    alloc: Global,
    file: &mut GltfFile,
    index: usize,
    out: &mut GltfIridescence,
) -> u32
    ensures same { file.new.value ≡ file.old.value }
    ensures given { GivesRead (said (IsIridescence index)) file.old.value result out.old out.new }
{
    extension::iridescence_info(alloc, file, index, out)
}

/// How the reflections of the material at an index are stretched
/// (`KHR_materials_anisotropy`).
#[unsafe(no_mangle)]
pub extern "C" fn core_anisotropy_info(
    alloc: Global,
    file: &mut GltfFile,
    index: usize,
    out: &mut GltfAnisotropy,
) -> u32
    ensures same { file.new.value ≡ file.old.value }
    ensures given { GivesRead (said (IsAnisotropy index)) file.old.value result out.old out.new }
{
    extension::anisotropy_info(alloc, file, index, out)
}

/// How the material at an index parts the colours of light (`KHR_materials_dispersion`).
#[unsafe(no_mangle)]
pub extern "C" fn core_dispersion_info(
    alloc: Global,
    file: &mut GltfFile,
    index: usize,
    out: &mut GltfDispersion,
) -> u32
    ensures same { file.new.value ≡ file.old.value }
    ensures given { GivesRead (said (IsDispersion index)) file.old.value result out.old out.new }
{
    extension::dispersion_info(alloc, file, index, out)
}

/// The light that the material at an index lets through and scatters
/// (`KHR_materials_diffuse_transmission`).
#[unsafe(no_mangle)]
pub extern "C" fn core_diffuse_transmission_info(
    alloc: Global,
    file: &mut GltfFile,
    index: usize,
    out: &mut GltfDiffuseTransmission,
) -> u32
    ensures same { file.new.value ≡ file.old.value }
    ensures given { GivesRead (said (IsDiffuseTransmission index)) file.old.value result
        out.old out.new }
{
    extension::diffuse_transmission_info(alloc, file, index, out)
}

/// The instances of the mesh of the node at an index (`EXT_mesh_gpu_instancing`).
#[unsafe(no_mangle)]
pub extern "C" fn core_instancing_info(
    alloc: Global,
    file: &mut GltfFile,
    index: usize,
    out: &mut GltfInstancing,
) -> u32
    ensures same { file.new.value ≡ file.old.value }
    ensures given { GivesRead (said (IsInstancing index)) file.old.value result out.old out.new }
{
    extension::instancing_info(alloc, file, index, out)
}

/// Whether the node at an index is shown (`KHR_node_visibility`).
#[unsafe(no_mangle)]
pub extern "C" fn core_visibility_info(
    alloc: Global,
    file: &mut GltfFile,
    index: usize,
    out: &mut GltfVisibility,
) -> u32
    ensures same { file.new.value ≡ file.old.value }
    ensures given { GivesRead (said (IsVisibility index)) file.old.value result out.old out.new }
{
    extension::visibility_info(alloc, file, index, out)
}

/// How the view at an index is compressed (`EXT_meshopt_compression`).
#[unsafe(no_mangle)]
pub extern "C" fn core_meshopt_info(
    alloc: Global,
    file: &mut GltfFile,
    index: usize,
    out: &mut GltfMeshopt,
) -> u32
    ensures same { file.new.value ≡ file.old.value }
    ensures given { GivesRead (said (IsMeshopt index)) file.old.value result out.old out.new }
{
    extension::meshopt_info(alloc, file, index, out)
}

/// The image of the texture at an index in a format of Basis Universal
/// (`KHR_texture_basisu`).
#[unsafe(no_mangle)]
pub extern "C" fn core_basisu_info(
    alloc: Global,
    file: &mut GltfFile,
    index: usize,
    out: &mut GltfTextureSource,
) -> u32
    ensures same { file.new.value ≡ file.old.value }
    ensures given { GivesRead (said (IsBasisu index)) file.old.value result out.old out.new }
{
    extension::basisu_info(alloc, file, index, out)
}

/// The image of the texture at an index in the format WebP (`EXT_texture_webp`).
#[unsafe(no_mangle)]
pub extern "C" fn core_webp_info(
    alloc: Global,
    file: &mut GltfFile,
    index: usize,
    out: &mut GltfTextureSource,
) -> u32
    ensures same { file.new.value ≡ file.old.value }
    ensures given { GivesRead (said (IsWebp index)) file.old.value result out.old out.new }
{
    extension::webp_info(alloc, file, index, out)
}

/// The packet of metadata that describes the record of a kind at an index (`KHR_xmp_json_ld`).
#[unsafe(no_mangle)]
pub extern "C" fn core_xmp_packet(
    alloc: Global,
    file: &mut GltfFile,
    kind: u32,
    index: usize,
    part: usize,
    packet: &mut usize,
) -> u32
    ensures same { file.new.value ≡ file.old.value }
    ensures given { GivesRead (said (IsPacket kind index part)) file.old.value result
        packet.old packet.new }
{
    extension::xmp_packet(alloc, file, kind, index, part, packet)
}
