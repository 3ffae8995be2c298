//! A file as JSON text with other files beside it.
ghost use Rattle.std.specs.Prelude.{◌≡◌, ◌≤◌, IfOk, IfErr, OnOk, length, string_bytes};
ghost use Rattle.serde_json.specs.Data.{depth};
ghost use Rattle.serde_json.specs.Read.{max_depth};
ghost use Rattle.serde_json.specs.View.{view};
ghost use Rattle.gltf_json.specs.Reading.{Reads};
ghost use Rattle.gltf_buffers.specs.Names.{names_of};
ghost use Rattle.gltf_buffers.specs.Shown.{bytes_of_each};
ghost use Rattle.gltf_required.specs.declared.required.Required.TheVariants.{Supported};
ghost use Rattle.gltf_split.specs.Splits.{Splits, IsValidText, IsValidTextAs, AreNamed};
ghost use Rattle.gltf_split.specs.Splits.{bytes_of_parts, drops, drops_as, kept, IsLaidOut};
ghost use Rattle.serde_json.specs.Written.{IsInOrder};
ghost use Rattle.gltf_split.specs.Refusals.{RefusesSplit};

use crate::images::image_parts;
use crate::left::what_is_left;
use crate::options::SplitOptions;
use gltf::NamedBytes;
use gltf::buffer::Data;
use gltf_bundle::{BundleError, Loaded, load_with};
use gltf_detach::{Part, buffer_name, detached};
use gltf_required::{Required, from_slice_as};
use serde_json::Value;
use std::alloc::{AllocError, Global};

/// A document as JSON text, with the files that it names.
#[derive(Debug, Drop)]
pub struct Pieces {
    /// The JSON text.
    pub json: String,
    /// The file of each buffer, by index.
    pub buffers: Vec<Part>,
    /// The file of each image that has one, by index.
    pub images: Vec<Option<Part>>,
}

/// The file at a path as JSON text with files beside it that it names (glTF 2.0, sections 2.8,
/// 3.6.1 and 3.8.3), where files are asked of a source as [`gltf::import_from`] asks them.
///
/// Each buffer has a file of the bytes that it is imported with, whose name is `STEM.bin`, or
/// `STEM0.bin` and so on where there are several. Each image that names a view has a file of the
/// bytes of this view, and each other one that has a URI has a file of the bytes that this leads
/// to, as that of a buffer does. Its name is `STEM_image0` with its index and an ending: `.png`,
/// `.jpg`, `.webp`, `.ktx2`, `.avif` or `.dds` where the bytes begin so, or, where they begin as
/// none of these, the member `mimeType` says so; else `.bin`.
/// With [`SplitOptions::keep_images`] images have no files. With
/// [`SplitOptions::keep_missing_images`] one that names no view, and whose URI leads to no bytes,
/// has none, and is no error.
///
/// What has a file names it by its `uri`, and such an image names no view. All other members keep
/// their values: views stay, also those that no image names any more. A chunk of unknown type and
/// a blob that no buffer takes are dropped.
///
/// With [`SplitOptions::drop_image_views`] the views at the end of the list go that images name,
/// and that no accessor names: all other views have the index that they had. All views stay where
/// the document has an extension that is not among some which name no view: one that it lists as
/// used, or one under a member `extensions`, at any depth and in `extras` too, listed or not. Each
/// buffer of a view that goes ends where the last view that stays in it ends, but has one byte at
/// least; where it becomes shorter, so do its file and its `byteLength`. It stays whole where more
/// stands behind that end than bytes of views that go, and zeros.
///
/// Returns [`BundleError::Import`] with the error of the import, or where there is not enough
/// memory. Each other error is of a file that is imported: [`BundleError::View`] with a view that
/// an image names, which is not there or does not lie in the bytes of its buffer;
/// [`BundleError::Image`] with an image whose URI leads to no bytes, and why. The text is read
/// before it is returned: [`BundleError::Answer`] says that it is refused, which is not expected
/// of any file.
pub fn split<S: NamedBytes>(
    alloc: Global,
    source: &mut S,
    path: &str,
    stem: &str,
    options: &SplitOptions,
) -> Result<Pieces, BundleError>
    ensures split { IfOk result (Splits Supported (names_of (S.bytes_by_name source.old)) path.now
        stem.now (kept options.now) (drops options.now) (S.failures source.old)
        (S.failures source.new)) }
    ensures layout { IfOk result (λ set. IsLaidOut options.now.pretty (string_bytes set.json)) }
    ensures accepted { IfOk result (λ set. IsValidText (string_bytes set.json)) }
    ensures refused { IfErr result (RefusesSplit Supported (names_of (S.bytes_by_name source.old))
        path.now stem.now (kept options.now) (drops options.now) options.now.pretty
        (S.failures source.old) (S.failures source.new)) }
{
    split_with(alloc, source, path, stem, options, &Required::Supported)
}

/// [`split`] of a file that may require these extensions (glTF 2.0, section 3.12, "Specifying
/// Extensions"). The text requires what the file does, and is read with the same extensions before
/// it is returned. Nothing that an extension says is read: what it says of views, accessors, images
/// and textures by their indices stays true, since all keep theirs, but for views that go with
/// [`SplitOptions::drop_image_views`], which stay where an extension may name them.
///
/// With [`Required::Mended`] and [`Required::AllMended`] the records are those of the file as it is
/// mended, and the text is read with the same mends. It is written as the file stands: a texture
/// without `source` and a channel without `node` (sections 5.29.2 and 5.7.1) stay so. All views stay
/// then.
pub fn split_with<S: NamedBytes>(
    alloc: Global,
    source: &mut S,
    path: &str,
    stem: &str,
    options: &SplitOptions,
    required: &Required<'_>,
) -> Result<Pieces, BundleError>
    ensures split { IfOk result (Splits required.now (names_of (S.bytes_by_name source.old))
        path.now stem.now (kept options.now) (drops_as required.now options.now)
        (S.failures source.old) (S.failures source.new)) }
    ensures layout { IfOk result (λ set. IsLaidOut options.now.pretty (string_bytes set.json)) }
    ensures accepted { IfOk result (λ set. IsValidTextAs required.now (string_bytes set.json)) }
    ensures refused { IfErr result (RefusesSplit required.now
        (names_of (S.bytes_by_name source.old)) path.now stem.now (kept options.now)
        (drops_as required.now options.now) options.now.pretty (S.failures source.old)
        (S.failures source.new)) }
{
    let set = gathered(alloc, source, path, stem, options, required)?;
    match from_slice_as(alloc, set.json.as_bytes(), required) {
        Ok(_) => Ok(set),
        Err(error) => Err(BundleError::of_answer(error)),
    }
}

/// The text and the files.
fn gathered<S: NamedBytes>(
    alloc: Global,
    source: &mut S,
    path: &str,
    stem: &str,
    options: &SplitOptions,
    required: &Required<'_>,
) -> Result<Pieces, BundleError>
    ensures split { IfOk result (Splits required.now (names_of (S.bytes_by_name source.old))
        path.now stem.now (kept options.now) (drops_as required.now options.now)
        (S.failures source.old) (S.failures source.new)) }
    ensures layout { IfOk result (λ set. IsLaidOut options.now.pretty (string_bytes set.json)) }
    ensures refused { IfErr result (RefusesSplit required.now
        (names_of (S.bytes_by_name source.old)) path.now stem.now (kept options.now)
        (drops_as required.now options.now) options.now.pretty (S.failures source.old)
        (S.failures source.new)) }
{
    let Loaded { value, buffers } = load_with(alloc, source, path, required)?;
    let images = image_parts(alloc, source, &value, options.keep(), stem, &buffers)?;
    let Loaded {
        value: left,
        buffers: cut,
    } = what_is_left(alloc, value, buffers, drops_as(options, required))?;
    let buffers = buffer_parts(alloc, stem, cut)?;
    let value = detached(alloc, left, &buffers, &images)?;
    let json = written(alloc, &value, options.pretty)?;
    Ok(Pieces {
        json,
        buffers,
        images,
    })
}

/// Whether the views of images go: not where the document is mended.
fn drops_as(options: &SplitOptions, required: &Required<'_>) -> bool
    ensures { result ≡ drops_as required.now options.now }
{
    match required.mends() {
        Some(_) => false,
        None => options.drops_views(),
    }
}

/// A file for each buffer.
fn buffer_parts(alloc: Global, stem: &str, buffers: Vec<Data>) -> Result<Vec<Part>, AllocError>
    ensures bytes { IfOk result (λ ps. bytes_of_parts ps.items ≡ bytes_of_each buffers.items) }
    ensures named { IfOk result (λ ps. AreNamed stem.now (length buffers.items) 0 ps.items) }
{
    let count = buffers.len();
    let mut parts = Vec::with_capacity(alloc, count)?;
    'buffers: for buffer in buffers {
        let name = buffer_name(alloc, stem, count, parts.len())?;
        parts.push(Part {
            name,
            bytes: buffer.0,
        })?;
    }
    Ok(parts)
}

/// The text of a value.
fn written(alloc: Global, value: &Value, pretty: bool) -> Result<String, AllocError>
    ensures reads { IfOk result (λ s. depth (view value.now) ≤ max_depth
        → Reads (string_bytes s) (view value.now)) }
    ensures order { IfOk result (λ s. IsInOrder (string_bytes s) (view value.now)) }
    ensures layout { IfOk result (λ s. IsLaidOut pretty (string_bytes s)) }
{
    if pretty {
        return value.to_string_pretty(alloc);
    }
    value.to_string(alloc)
}
