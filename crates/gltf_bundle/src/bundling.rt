//! One container out of a file and the files that its buffers and images name.
ghost use Rattle.std.specs.Prelude.{◌≡◌, IfOk, IfErr, OnOk, length};
ghost use Rattle.gltf_buffers.specs.Names.{names_of};
ghost use Rattle.gltf_bundle.specs.Bundle.{Bundles, IsAccepted, IsAcceptedAs, IsContainerOf};
ghost use Rattle.gltf_bundle.specs.Bundle.{blob_of};
ghost use Rattle.gltf_bundle.specs.Keep.{kept};
ghost use Rattle.gltf_bundle.specs.Refusals.{RefusesBundle, RefusesContainerOf};
ghost use Rattle.gltf_edit.specs.Bundled.{bundled, ArePlaced};
ghost use Rattle.gltf_edit.specs.Embedded.{embedded};
ghost use Rattle.gltf_edit.specs.Faults.{NamesStray};
ghost use Rattle.gltf_edit.specs.Joined.{joined};
ghost use Rattle.gltf.specs.Shown.{bytes_of_each};
ghost use Rattle.gltf_required.specs.declared.required.Required.TheVariants.{Supported};
ghost use Rattle.serde_json.specs.View.{view};

use crate::error::BundleError;
use crate::joining::{Places, joined_container, places_of};
use crate::loading::{Gathered, gather};
use crate::options::BundleOptions;
use crate::trial::tried;
use gltf::NamedBytes;
use gltf::buffer::Data;
use gltf_edit::{Fault, Picture, bundled, embedded};
use gltf_required::Required;
use serde_json::Value;
use std::alloc::Global;

/// The file at a path as one GLB container (glTF 2.0, section 4.4) that needs no other file, where
/// files are asked of a source as [`gltf::import_from`] asks them.
///
/// Each image with a URI and no view is taken in: its bytes are those that its URI leads to, as
/// that of a buffer does. It goes into a buffer and a view of its own, behind those of the file,
/// and names that view with its media type, in place of its URI.
/// The media type is that which a `data:` URI names, where it is `image/` with a name behind it
/// (RFC 6838, section 4.2); else the image's member `mimeType`, where it is such a one; else the
/// one of PNG, JPEG, WebP, KTX2, AVIF and DDS whose files begin as its bytes do. An image that
/// names a view is what this holds: a URI beside it does not stay. With
/// [`BundleOptions::keep_images`] images are not touched: those with URIs keep them. With
/// [`BundleOptions::keep_missing_images`] an image whose URI leads to no bytes, or to bytes of no
/// media type, keeps it, and is no error.
///
/// The one buffer of the container has the bytes of all buffers, as they are imported, and of these
/// images, one after the other, each from a multiple of eight bytes on. Each view has its bytes
/// there, and so has what `EXT_meshopt_compression` or `KHR_meshopt_compression` says of it. All
/// other members keep their values; the names and extras of the buffers go with these. A chunk of
/// unknown type and a blob that no buffer takes are dropped. An extension that is not known here
/// and names buffers or files itself cannot be seen: what it says stays as it is.
///
/// Returns [`BundleError::Import`] with the error of the import, or where there is not enough
/// memory. Each other error is of a file that is imported: [`BundleError::Image`] with the first
/// image whose URI leads to no bytes, and why, or [`BundleError::ImageType`] where these have no
/// media type; [`BundleError::View`] with the first view that does not lie in the bytes of its
/// buffer; [`BundleError::TooLong`] where the one buffer, and [`BundleError::Answer`] where the
/// container would have more than 4294967295 bytes. The container is imported before it is
/// returned: [`BundleError::Answer`] also says that it is refused, which is not expected of any
/// file.
pub fn bundle<S: NamedBytes>(
    alloc: Global,
    source: &mut S,
    path: &str,
    options: &BundleOptions,
) -> Result<Vec<u8>, BundleError>
    ensures bundle { IfOk result (λ answer. Bundles Supported
        (names_of (S.bytes_by_name source.old)) path.now (kept options.now)
        (S.failures source.old) (S.failures source.new) answer.items) }
    ensures accepted { IfOk result (λ answer. IsAccepted answer.items) }
    ensures refused { IfErr result (RefusesBundle Supported
        (names_of (S.bytes_by_name source.old)) path.now (kept options.now)
        (S.failures source.old) (S.failures source.new)) }
{
    bundle_with(alloc, source, path, options, &Required::Supported)
}

/// [`bundle`] of a file that may require these extensions (glTF 2.0, section 3.12, "Specifying
/// Extensions"). The container requires what the file does, and is tried with the same extensions
/// before it is returned. Nothing that an extension says is read but that of
/// `EXT_meshopt_compression` and `KHR_meshopt_compression`: what it says of views, accessors,
/// images and textures by their indices stays true, since all keep theirs.
///
/// With [`Required::Mended`] and [`Required::AllMended`] the records are those of the file as it is
/// mended, and the container is tried with the same mends. It is written as the file stands: a
/// texture without `source` and a channel without `node` (sections 5.29.2 and 5.7.1) stay so.
pub fn bundle_with<S: NamedBytes>(
    alloc: Global,
    source: &mut S,
    path: &str,
    options: &BundleOptions,
    required: &Required<'_>,
) -> Result<Vec<u8>, BundleError>
    ensures bundle { IfOk result (λ answer. Bundles required.now
        (names_of (S.bytes_by_name source.old)) path.now (kept options.now)
        (S.failures source.old) (S.failures source.new) answer.items) }
    ensures accepted { IfOk result (λ answer. IsAcceptedAs required.now answer.items) }
    ensures refused { IfErr result (RefusesBundle required.now
        (names_of (S.bytes_by_name source.old)) path.now (kept options.now)
        (S.failures source.old) (S.failures source.new)) }
{
    let Gathered {
        value,
        pictures,
        buffers,
    } = gather(alloc, source, path, options.keep(), required)?;
    let places = places_of(alloc, &buffers)?;
    let value = edited(alloc, value, &pictures, &places)?;
    let answer = container_of(alloc, &value, &buffers, places.total)?;
    drop(buffers);
    match tried(alloc, &answer, required) {
        Ok(()) => Ok(answer),
        Err(error) => Err(BundleError::of_answer(error)),
    }
}

/// The value of the container: the images in buffers of their own, and all buffers in one.
fn edited(
    alloc: Global,
    value: Value,
    pictures: &[Option<Picture>],
    all: &Places,
) -> Result<Value, Fault>
    ensures value { IfOk result (λ v. view v
        ≡ bundled all.now.spans.items all.now.total (embedded pictures.now (view value))) }
    ensures placed { OnOk result (ArePlaced all.now.spans.items
        (embedded pictures.now (view value))) }
    ensures refused { IfErr result (NamesStray all.now.spans.items
        (embedded pictures.now (view value))) }
{
    let value = embedded(alloc, value, pictures)?;
    bundled(alloc, value, &all.spans, all.total)
}

/// The text of the value and the bytes of all buffers, joined, as a container.
fn container_of(
    alloc: Global,
    value: &Value,
    buffers: &[Data],
    total: u32,
) -> Result<Vec<u8>, BundleError>
    requires { total ≡ length (joined (bytes_of_each buffers.now)) }
    ensures written { IfOk result (λ answer. IsContainerOf (view value.now)
        (blob_of (bytes_of_each buffers.now)) answer.items) }
    ensures refused { IfErr result (RefusesContainerOf (view value.now)
        (blob_of (bytes_of_each buffers.now))) }
{
    let written = value.to_string(alloc)?;
    let text = written.as_str();
    match joined_container(alloc, text.as_bytes(), buffers, total) {
        Ok(answer) => Ok(answer),
        Err(error) => Err(BundleError::of_answer(error)),
    }
}
