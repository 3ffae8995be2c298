//! The names of files, and the URIs that lead to them (glTF 2.0, section 2.8).
ghost use Rattle.std.specs.Prelude.{◌≡◌, IfOk, string_bytes, option_copied, option_map};
ghost use Rattle.gltf_detach.specs.Detached.{texts};
ghost use Rattle.gltf_detach.specs.Naming.{buffer_name, image_name, ending_of, ending_for};
ghost use Rattle.gltf_detach.specs.Naming.{buffer_uris, image_uris, image_uri, uri_text};

use crate::part::Part;
use percent_encoding::{AsciiSet, NON_ALPHANUMERIC, ascii_set, percent_encode};
use std::alloc::{AllocError, Global};

/// What is escaped in a URI: all ASCII characters but those that RFC 3986, section 2.3, calls
/// unreserved.
pub const ESCAPED: AsciiSet = ascii_set!(
    NON_ALPHANUMERIC
        .remove(b'-')
        .remove(b'.')
        .remove(b'_')
        .remove(b'~')
);

/// The name of the file of a buffer, one of so many: `STEM.bin` where it is the only one, else
/// `STEM0.bin` and so on.
pub fn buffer_name(
    alloc: Global,
    stem: &str,
    count: usize,
    index: usize,
) -> Result<String, AllocError>
    ensures { IfOk result (λ s. string_bytes s ≡ buffer_name stem.now count index) }
{
    if count == 1 {
        return format!(in alloc; "{stem}.bin");
    }
    format!(in alloc; "{stem}{index}.bin")
}

/// The name of the file of an image, as `STEM_image0.png`.
pub fn image_name(
    alloc: Global,
    stem: &str,
    index: usize,
    ending: &str,
) -> Result<String, AllocError>
    ensures { IfOk result (λ s. string_bytes s ≡ image_name stem.now index ending.now) }
{
    format!(in alloc; "{stem}_image{index}{ending}")
}

/// The ending of the name of an image whose bytes begin as those of the first media type do, and
/// which names the other: that for the first, else for the other.
pub fn ending_of(begun: Option<&str>, own: Option<&str>) -> &'static str
    ensures { result.now ≡ ending_of (option_copied begun.entry) (option_copied own.entry) }
{
    match begun {
        Some(media) => ending_for(media),
        None => match own {
            Some(media) => ending_for(media),
            None => ".bin",
        },
    }
}

/// The ending for a media type: that of one of six, or `.bin`.
fn ending_for(media: &str) -> &'static str
    ensures { result.now ≡ ending_for media.now }
{
    if media == "image/png" {
        ".png"
    } else if media == "image/jpeg" {
        ".jpg"
    } else if media == "image/webp" {
        ".webp"
    } else if media == "image/ktx2" {
        ".ktx2"
    } else if media == "image/avif" {
        ".avif"
    } else if media == "image/vnd-ms.dds" {
        ".dds"
    } else {
        ".bin"
    }
}

/// The URIs of the files of buffers.
pub(crate) fn buffer_uris(alloc: Global, parts: &[Part]) -> Result<Vec<Option<String>>, AllocError>
    ensures { IfOk result (λ us. texts us.items ≡ buffer_uris parts.now) }
{
    let mut uris = Vec::with_capacity(alloc, parts.len())?;
    for part in parts {
        uris.push(Some(uri_of(alloc, part)?))?;
    }
    Ok(uris)
}

/// The URIs of the files of images.
pub(crate) fn image_uris(
    alloc: Global,
    parts: &[Option<Part>],
) -> Result<Vec<Option<String>>, AllocError>
    ensures { IfOk result (λ us. texts us.items ≡ image_uris parts.now) }
{
    let mut uris = Vec::with_capacity(alloc, parts.len())?;
    for part in parts {
        uris.push(image_uri(alloc, part)?)?;
    }
    Ok(uris)
}

/// The URI of the file of an image, where it has one.
fn image_uri(alloc: Global, part: &Option<Part>) -> Result<Option<String>, AllocError>
    ensures { IfOk result (λ u. option_map string_bytes u ≡ image_uri part.now) }
{
    match part {
        Some(part) => Ok(Some(uri_of(alloc, part)?)),
        None => Ok(None),
    }
}

/// The URI that leads to a file in the folder of the document.
fn uri_of(alloc: Global, part: &Part) -> Result<String, AllocError>
    ensures { IfOk result (λ u. string_bytes u ≡ uri_text (string_bytes part.now.name)) }
{
    let mut uri = String::new(alloc);
    percent_encode(part.name.as_bytes(), ESCAPED).append_to(&mut uri)?;
    Ok(uri)
}
