//! Calls for buffers, views, accessors and images, and for where their bytes lie.
ghost use Rattle.std.specs.Prelude.{◌≡◌};
ghost use Rattle.gltf_c_bytes.specs.Info.{buffer_of, accessor_of, image_of};
ghost use Rattle.gltf_c_bytes.specs.Places.{buffer_place, view_place, accessor_place};
ghost use Rattle.gltf_c_look.specs.Views.{view_of};
ghost use Rattle.gltf_c_handle.specs.Calls.{Gives, shown};

use crate::at::At;
use gltf_c_bytes::info::{GltfAccessor, GltfBuffer, GltfImage};
use gltf_c_bytes::place::GltfBytes;
use gltf_c_bytes::{info, place};
use gltf_c_handle::ask::{Ask, answer};
use gltf_c_handle::handle::GltfFile;
use gltf_c_look::view;
use gltf_c_look::view::GltfBufferView;
use gltf_c_open::file::File;
use std::alloc::Global;

impl Ask<GltfBuffer> for At {
    ghost asked = { λ at. buffer_of at.index };

    fn ask(&self, file: &File) -> Option<GltfBuffer> {
        info::buffer(file, self.index)
    }
}

/// What the buffer at an index is (glTF 2.0, section 5.10).
pub fn buffer_info(alloc: Global, file: &mut GltfFile, index: usize, out: &mut GltfBuffer) -> u32
    ensures same { file.new.value ≡ file.old.value }
    ensures given { Gives (buffer_of index) file.old.value result out.old out.new }
{
    answer(alloc, file, &At { index }, out)
}

impl Ask<GltfBufferView> for At {
    ghost asked = { λ at. shown (view_of at.index) };

    fn ask(&self, file: &File) -> Option<GltfBufferView> {
        view::view(file.document.as_json(), self.index)
    }
}

/// What the view at an index is (section 5.11).
pub fn buffer_view_info(
    alloc: Global,
    file: &mut GltfFile,
    index: usize,
    out: &mut GltfBufferView,
) -> u32
    ensures same { file.new.value ≡ file.old.value }
    ensures given { Gives (shown (view_of index)) file.old.value result out.old out.new }
{
    answer(alloc, file, &At { index }, out)
}

impl Ask<GltfAccessor> for At {
    ghost asked = { λ at. accessor_of at.index };

    fn ask(&self, file: &File) -> Option<GltfAccessor> {
        info::accessor(file, self.index)
    }
}

/// What the accessor at an index is (section 5.1).
pub fn accessor_info(
    alloc: Global,
    file: &mut GltfFile,
    index: usize,
    out: &mut GltfAccessor,
) -> u32
    ensures same { file.new.value ≡ file.old.value }
    ensures given { Gives (accessor_of index) file.old.value result out.old out.new }
{
    answer(alloc, file, &At { index }, out)
}

impl Ask<GltfImage> for At {
    ghost asked = { λ at. image_of at.index };

    fn ask(&self, file: &File) -> Option<GltfImage> {
        info::image(file, self.index)
    }
}

/// Where the bytes of the image at an index are (section 5.18).
pub fn image_info(alloc: Global, file: &mut GltfFile, index: usize, out: &mut GltfImage) -> u32
    ensures same { file.new.value ≡ file.old.value }
    ensures given { Gives (image_of index) file.old.value result out.old out.new }
{
    answer(alloc, file, &At { index }, out)
}

/// The bytes of the buffer at an index.
#[derive(Clone, Copy)]
struct BufferBytes {
    index: usize,
}

impl Ask<GltfBytes> for BufferBytes {
    ghost asked = { λ bytes. buffer_place bytes.index };

    fn ask(&self, file: &File) -> Option<GltfBytes> {
        place::buffer(file, self.index)
    }
}

/// Where the bytes of the buffer at an index lie. `NoSuchIndex` also where it waits for them.
pub fn buffer_bytes(alloc: Global, file: &mut GltfFile, index: usize, out: &mut GltfBytes) -> u32
    ensures same { file.new.value ≡ file.old.value }
    ensures given { Gives (buffer_place index) file.old.value result out.old out.new }
{
    answer(alloc, file, &BufferBytes { index }, out)
}

/// The bytes of the view at an index.
#[derive(Clone, Copy)]
struct ViewBytes {
    index: usize,
}

impl Ask<GltfBytes> for ViewBytes {
    ghost asked = { λ bytes. view_place bytes.index };

    fn ask(&self, file: &File) -> Option<GltfBytes> {
        place::view(file, self.index)
    }
}

/// Where the bytes of the view at an index lie. `NoSuchIndex` also where its buffer waits for its
/// bytes, or the view does not lie in these.
pub fn view_bytes(alloc: Global, file: &mut GltfFile, index: usize, out: &mut GltfBytes) -> u32
    ensures same { file.new.value ≡ file.old.value }
    ensures given { Gives (view_place index) file.old.value result out.old out.new }
{
    answer(alloc, file, &ViewBytes { index }, out)
}

/// The items of the accessor at an index.
#[derive(Clone, Copy)]
struct AccessorBytes {
    index: usize,
}

impl Ask<GltfBytes> for AccessorBytes {
    ghost asked = { λ bytes. accessor_place bytes.index };

    fn ask(&self, file: &File) -> Option<GltfBytes> {
        place::accessor(file, self.index)
    }
}

/// Where the items of the accessor at an index lie, from the first one to the end of the last one.
/// `NoSuchIndex` also where they have no view that holds them and lies in its buffer, where one is
/// overridden, and where one has padding inside.
pub fn accessor_bytes(alloc: Global, file: &mut GltfFile, index: usize, out: &mut GltfBytes) -> u32
    ensures same { file.new.value ≡ file.old.value }
    ensures given { Gives (accessor_place index) file.old.value result out.old out.new }
{
    answer(alloc, file, &AccessorBytes { index }, out)
}
