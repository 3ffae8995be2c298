//! The bytes of images that have URIs.
ghost use Rattle.std.specs.Prelude.{◌≡◌, ◌≢◌, ◌++◌, ◌∷◌, [], ℕ, List, Some, Ok, IfOk, IfErr, OnOk};
ghost use Rattle.std.specs.Prelude.{option_copied, codes};
ghost use Rattle.serde_json.specs.View.{view, items_view};
ghost use Rattle.gltf_buffers.specs.Shown.{bytes_of_each};
ghost use Rattle.gltf_buffers.specs.Buffers.{IsMeant};
ghost use Rattle.gltf_buffers.specs.Uri.{uri_of};
ghost use Rattle.gltf_bundle.specs.Images.{AreTaken, AllTaken, Takes, IsTaken, text_at};
ghost use Rattle.gltf_bundle.specs.Images.{RefusesImages, RefusesImage, RefusesKept, RefusesRead};
ghost use Rattle.gltf_bundle.specs.declared.options.Keep.TheVariants.{Every};
ghost use Rattle.gltf_names.specs.Named.{Named};
ghost use Rattle.gltf_edit.specs.Embedded.{items_at, own_uri};

use crate::error::BundleError;
use crate::media::media_of;
use crate::options::Keep;
use gltf::buffer::Data;
use gltf_buffers::{Ask, bytes_of_uri};
use gltf_edit::{Picture, size_at};
use gltf_glb::Error;
use serde_json::Value;
use std::alloc::Global;

/// A picture for each image of a document that is read by a URI, by index. Their bytes go behind
/// those of the buffers, in order. Where all images stay there are none; where those stay that are
/// missing, these have none.
///
/// The error is that of the first image that has one: [`BundleError::Image`] where its URI leads to
/// no bytes, and [`BundleError::ImageType`] where they are of no known media type.
pub(crate) fn pictures_of<N: Ask>(
    alloc: Global,
    names: &mut N,
    document: &Value,
    keep: Keep,
    buffers: &mut Vec<Data>,
) -> Result<Vec<Option<Picture>>, BundleError>
    ensures taken { IfOk result (λ ps. (taken : List (List ℕ)) × (lost : List Named)
        × AreTaken keep (N.names names.old) (view document.now) ps.items taken lost
        × (bytes_of_each buffers.new.items ≡ bytes_of_each buffers.old.items ++ taken)
        × (N.failures names.new ≡ lost ++ N.failures names.old)) }
    ensures refused { IfErr result (RefusesImages keep (N.names names.old)
        (items_at (codes "images") (view document.now))
        (N.failures names.old) (N.failures names.new)) }
{
    match keep {
        Keep::Every => Ok(Vec::new(alloc)),
        _ => {
            let pictures = all_taken(alloc, names, images_of(document), keep, buffers)?;
            Ok(pictures)
        }
    }
}

/// The images of a document.
pub fn images_of(document: &Value) -> &[Value]
    ensures { items_view result.now ≡ items_at (codes "images") (view document.now) }
{
    match document.get("images") {
        Some(Value::Array(images)) => images,
        _ => &[],
    }
}

/// A picture for each of these images that is read by a URI, by index, but for those that stay.
fn all_taken<N: Ask>(
    alloc: Global,
    names: &mut N,
    images: &[Value],
    keep: Keep,
    buffers: &mut Vec<Data>,
) -> Result<Vec<Option<Picture>>, BundleError>
    requires { keep ≢ Every }
    ensures taken { IfOk result (λ ps. (taken : List (List ℕ)) × (lost : List Named)
        × AllTaken keep (N.names names.old) (items_view images.now) ps.items taken lost
        × (bytes_of_each buffers.new.items ≡ bytes_of_each buffers.old.items ++ taken)
        × (N.failures names.new ≡ lost ++ N.failures names.old)) }
    ensures refused { IfErr result (RefusesImages keep (N.names names.old) (items_view images.now)
        (N.failures names.old) (N.failures names.new)) }
{
    let mut all = Vec::with_capacity(alloc, images.len())?;
    for (i, image) in images.iter().enumerate() {
        let picture = taken_in(alloc, names, i, image, keep, buffers)?;
        all.push(picture)?;
    }
    Ok(all)
}

/// The picture that an image becomes, where it is read by a URI and does not stay. Its bytes go
/// behind those of the buffers.
fn taken_in<N: Ask>(
    alloc: Global,
    names: &mut N,
    index: usize,
    image: &Value,
    keep: Keep,
    buffers: &mut Vec<Data>,
) -> Result<Option<Picture>, BundleError>
    requires { keep ≢ Every }
    ensures taken { IfOk result (λ p. (taken : List (List ℕ)) × (lost : List Named)
        × Takes keep (N.names names.old) (view image.now) p taken lost
        × (bytes_of_each buffers.new.items ≡ bytes_of_each buffers.old.items ++ taken)
        × (N.failures names.new ≡ lost ++ N.failures names.old)) }
    ensures refused { IfErr result (RefusesKept keep (N.names names.old) index
        (N.failures names.old) (N.failures names.new) (view image.now)) }
    ensures kept { N.names names.new ≡ N.names names.old }
{
    let Some(uri) = own_uri(image) else {
        return Ok(None);
    };
    match picture_of(alloc, names, index, image, uri, buffers) {
        Ok(picture) => Ok(Some(picture)),
        Err(error) => {
            if keep.spares(&error) {
                return Ok(None);
            }
            Err(error)
        }
    }
}

/// The picture that an image becomes which is read by this URI. Its bytes go behind those of the
/// buffers.
fn picture_of<N: Ask>(
    alloc: Global,
    names: &mut N,
    index: usize,
    image: &Value,
    uri: &str,
    buffers: &mut Vec<Data>,
) -> Result<Picture, BundleError>
    requires { own_uri (view image.now) ≡ Some uri.now }
    ensures taken { IfOk result (λ p. (bytes : List ℕ)
        × IsTaken (N.names names.old) (view image.now) p bytes
        × (bytes_of_each buffers.new.items
        ≡ bytes_of_each buffers.old.items ++ (bytes ∷ []))) }
    ensures refused { IfErr result (λ e. RefusesImage (N.names names.old) index
        (N.failures names.old) (N.failures names.new) (view image.now) e
        × (bytes_of_each buffers.new.items ≡ bytes_of_each buffers.old.items)) }
    ensures fine { OnOk result (N.failures names.new ≡ N.failures names.old) }
    ensures kept { N.names names.new ≡ N.names names.old }
{
    let bytes = image_bytes(alloc, names, index, uri)?;
    let Some(media) = media_of(uri, text_at(image, "mimeType"), &bytes) else {
        return Err(BundleError::ImageType(index));
    };
    let picture = Picture {
        length: bytes.len(),
        media: String::from_str(alloc, media)?,
    };
    buffers.push(Data(bytes))?;
    Ok(picture)
}

/// The URI by which an image is read: where it names a view, it is what this holds.
fn own_uri(image: &Value) -> Option<&str>
    ensures { option_copied result ≡ own_uri (view image.now) }
{
    match size_at(image, "bufferView") {
        Some(_) => None,
        None => text_at(image, "uri"),
    }
}

/// A member that is a text.
pub fn text_at<'a>(value: &'a Value, name: &str) -> Option<&'a str>
    ensures { option_copied result ≡ text_at name.now (view value.now) }
{
    value.get(name).and_then(Value::as_str)
}

/// The bytes that the URI of an image leads to.
pub fn image_bytes<N: Ask>(
    alloc: Global,
    names: &mut N,
    index: usize,
    uri: &str,
) -> Result<Vec<u8>, BundleError>
    ensures ok { IfOk result (λ bytes. IsMeant (N.names names.old) (uri_of uri.now)
        (Ok bytes.items)) }
    ensures refused { IfErr result (RefusesRead (N.names names.old) index (N.failures names.old)
        (N.failures names.new) uri.now) }
    ensures fine { OnOk result (N.failures names.new ≡ N.failures names.old) }
    ensures kept { N.names names.new ≡ N.names names.old }
{
    // It is made first: where there is no memory for it, nothing was asked for.
    let own = String::from_str(alloc, uri)?;
    match bytes_of_uri(alloc, uri, names) {
        Ok(bytes) => Ok(bytes),
        Err(Error::Memory) => Err(BundleError::Import(Error::Memory)),
        Err(cause) => Err(BundleError::Image {
            image: index,
            uri: own,
            cause,
        }),
    }
}
