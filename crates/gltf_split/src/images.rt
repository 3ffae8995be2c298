//! The files of images (glTF 2.0, section 3.8.3).
ghost use Rattle.std.specs.Prelude.{◌≡◌, ◌≢◌, ◌++◌, List, IfOk, IfErr, OnOk, Some, codes};
ghost use Rattle.std.specs.Prelude.{string_bytes};
ghost use Rattle.gltf_bundle.specs.declared.options.Keep.TheVariants.{Every};
ghost use Rattle.serde_json.specs.View.{view, items_view};
ghost use Rattle.gltf_buffers.specs.Shown.{bytes_of_each};
ghost use Rattle.gltf_edit.specs.Embedded.{items_at};
ghost use Rattle.gltf.specs.Shown.{blob_bytes};
ghost use Rattle.gltf_split.specs.Images.{AreImages, AreParts, MayBePart, HasOwn, name_for};
ghost use Rattle.gltf_split.specs.Images.{RefusesImages, RefusesKept, RefusesOwn, RefusesView};
ghost use Rattle.gltf_names.specs.Named.{Named};
ghost use Rattle.gltf_split.specs.Views.{view_bytes};

use crate::views::view_bytes;
use gltf::buffer::Data;
use gltf_buffers::Ask;
use gltf_bundle::{BundleError, Keep, begun_media, image_bytes, images_of, text_at};
use gltf_detach::{Part, ending_of, image_name};
use gltf_edit::size_at;
use serde_json::Value;
use std::alloc::{AllocError, Global};

/// A file for each image of a document that has bytes, by index. Where all images stay there are
/// none; where those stay that are missing, these have none.
pub(crate) fn image_parts<N: Ask>(
    alloc: Global,
    names: &mut N,
    document: &Value,
    keep: Keep,
    stem: &str,
    buffers: &[Data],
) -> Result<Vec<Option<Part>>, BundleError>
    ensures parts { IfOk result (λ ps. (lost : List Named)
        × AreImages keep (N.names names.old) stem.now (bytes_of_each buffers.now)
        (view document.now) ps.items lost
        × (N.failures names.new ≡ lost ++ N.failures names.old)) }
    ensures refused { IfErr result (RefusesImages keep (N.names names.old)
        (bytes_of_each buffers.now) (view document.now)
        (items_at (codes "images") (view document.now)) (N.failures names.old)
        (N.failures names.new)) }
{
    match keep {
        Keep::Every => Ok(Vec::new(alloc)),
        _ => {
            let images = images_of(document);
            let parts = all_parts(alloc, names, document, images, keep, stem, buffers)?;
            Ok(parts)
        }
    }
}

/// A file for each of these images that has bytes, by index, but for those that stay.
fn all_parts<N: Ask>(
    alloc: Global,
    names: &mut N,
    document: &Value,
    images: &[Value],
    keep: Keep,
    stem: &str,
    buffers: &[Data],
) -> Result<Vec<Option<Part>>, BundleError>
    requires { keep ≢ Every }
    ensures parts { IfOk result (λ ps. (lost : List Named)
        × AreParts keep (N.names names.old) stem.now (bytes_of_each buffers.now)
        (view document.now) 0 (items_view images.now) ps.items lost
        × (N.failures names.new ≡ lost ++ N.failures names.old)) }
    ensures refused { IfErr result (RefusesImages keep (N.names names.old)
        (bytes_of_each buffers.now) (view document.now) (items_view images.now)
        (N.failures names.old) (N.failures names.new)) }
{
    let mut all = Vec::with_capacity(alloc, images.len())?;
    for (i, image) in images.iter().enumerate() {
        let part = part_of(alloc, names, document, i, image, keep, stem, buffers)?;
        all.push(part)?;
    }
    Ok(all)
}

/// The file of an image, where it has bytes and does not stay.
fn part_of<N: Ask>(
    alloc: Global,
    names: &mut N,
    document: &Value,
    index: usize,
    image: &Value,
    keep: Keep,
    stem: &str,
    buffers: &[Data],
) -> Result<Option<Part>, BundleError>
    ensures part { IfOk result (λ p. (lost : List Named)
        × MayBePart keep (N.names names.old) stem.now (bytes_of_each buffers.now)
        (view document.now) index (view image.now) p lost
        × (N.failures names.new ≡ lost ++ N.failures names.old)) }
    ensures refused { IfErr result (RefusesKept keep (N.names names.old)
        (bytes_of_each buffers.now) (view document.now) index (N.failures names.old)
        (N.failures names.new) (view image.now)) }
    ensures kept { N.names names.new ≡ N.names names.old }
{
    let bytes = match own_bytes(alloc, names, document, index, image, buffers) {
        Ok(Some(bytes)) => bytes,
        Ok(None) => return Ok(None),
        Err(error) => {
            if keep.spares(&error) {
                return Ok(None);
            }
            return Err(error);
        }
    };
    let name = name_for(alloc, stem, index, image, &bytes)?;
    Ok(Some(Part { name, bytes }))
}

/// The name of the file of an image with these bytes.
fn name_for(
    alloc: Global,
    stem: &str,
    index: usize,
    image: &Value,
    bytes: &[u8],
) -> Result<String, AllocError>
    ensures { IfOk result (λ s. string_bytes s
        ≡ name_for stem.now index (view image.now) bytes.now) }
{
    let ending = ending_of(begun_media(bytes), text_at(image, "mimeType"));
    image_name(alloc, stem, index, ending)
}

/// The bytes of an image: those of the view that it names, else those that its URI leads to.
fn own_bytes<N: Ask>(
    alloc: Global,
    names: &mut N,
    document: &Value,
    index: usize,
    image: &Value,
    buffers: &[Data],
) -> Result<Option<Vec<u8>>, BundleError>
    ensures own { IfOk result (λ bytes. HasOwn (N.names names.old) (bytes_of_each buffers.now)
        (view document.now) (view image.now) (blob_bytes bytes)) }
    ensures refused { IfErr result (RefusesOwn (N.names names.old) (bytes_of_each buffers.now)
        (view document.now) index (N.failures names.old) (N.failures names.new)
        (view image.now)) }
    ensures fine { OnOk result (N.failures names.new ≡ N.failures names.old) }
    ensures kept { N.names names.new ≡ N.names names.old }
{
    if let Some(index) = size_at(image, "bufferView") {
        return Ok(Some(viewed(alloc, document, index, buffers)?));
    }
    match text_at(image, "uri") {
        Some(uri) => Ok(Some(image_bytes(alloc, names, index, uri)?)),
        None => Ok(None),
    }
}

/// A copy of the bytes of a view.
fn viewed(
    alloc: Global,
    document: &Value,
    index: u64,
    buffers: &[Data],
) -> Result<Vec<u8>, BundleError>
    ensures viewed { IfOk result (λ bytes. view_bytes (bytes_of_each buffers.now)
        (view document.now) index ≡ Some bytes.items) }
    ensures refused { IfErr result (RefusesView (bytes_of_each buffers.now) (view document.now)
        index) }
{
    match view_bytes(document, index, buffers) {
        Some(bytes) => Ok(Vec::from_slice(alloc, bytes)?),
        None => Err(BundleError::View(index as usize)),
    }
}
