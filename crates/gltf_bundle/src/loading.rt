//! The value of a file's JSON, and the bytes of its buffers.
ghost use Rattle.std.specs.Prelude.{◌≡◌, IfOk, IfErr, OnOk};
ghost use Rattle.gltf_bundle.specs.Bundle.{IsLoaded, IsValueOf, AreGathered};
ghost use Rattle.gltf_bundle.specs.Refusals.{RefusesSource, RefusesFile};
ghost use Rattle.gltf_bundle.specs.declared.error.BundleError.TheVariants.{Import};
ghost use Rattle.gltf_glb.specs.declared.error.Error.TheVariants.{Memory};
ghost use Rattle.gltf_required.specs.declared.required.Required.TheVariants.{Supported};
ghost use Rattle.gltf_buffers.specs.Names.{names_of};
ghost use Rattle.serde_json.specs.View.{view};

use crate::error::BundleError;
use crate::images::pictures_of;
use crate::options::Keep;
use gltf::buffer::Data;
use gltf::laws::one_text_and_blob;
use gltf::{Gltf, Name, NamedBytes, import_buffers_from, text_and_blob};
use gltf_buffers::Ask;
use gltf_edit::Picture;
use gltf_glb::Error;
use gltf_required::{Required, from_slice_as};
use serde_json::Value;
use std::alloc::Global;

/// The value of a file's JSON, and the bytes of its buffers.
#[derive(Drop)]
pub struct Loaded {
    /// The value.
    pub value: Value,
    /// The bytes, by index.
    pub buffers: Vec<Data>,
}

/// Imports the file at the path, as [`gltf::import_from`] does.
pub fn load<S: NamedBytes>(alloc: Global, source: &mut S, path: &str) -> Result<Loaded, BundleError>
    ensures loaded { IfOk result (IsLoaded Supported (names_of (S.bytes_by_name source.old))
        path.now) }
    ensures refused { IfErr result (RefusesSource Supported (names_of (S.bytes_by_name source.old))
        path.now (S.failures source.old) (S.failures source.new)) }
    ensures fine { OnOk result (S.failures source.new ≡ S.failures source.old) }
    ensures kept { OnOk result (names_of (S.bytes_by_name source.new)
        ≡ names_of (S.bytes_by_name source.old)) }
{
    load_with(alloc, source, path, &Required::Supported)
}

/// [`load`] of a file that may require these extensions (glTF 2.0, section 3.12, "Specifying
/// Extensions"). The value is that of the whole file, with all names that it requires. The error of
/// a broken rule is that of the file without the names that pass.
///
/// With [`Required::Mended`] and [`Required::AllMended`] the records are those of the file as it is
/// mended, and so are the errors of records and rules: a texture may leave its `source`, and the
/// target of a channel its `node`, to an extension (sections 5.29.2 and 5.7.1). The value is that
/// of the file as it stands.
pub fn load_with<S: NamedBytes>(
    alloc: Global,
    source: &mut S,
    path: &str,
    required: &Required<'_>,
) -> Result<Loaded, BundleError>
    ensures loaded { IfOk result (IsLoaded required.now (names_of (S.bytes_by_name source.old))
        path.now) }
    ensures refused { IfErr result (RefusesSource required.now
        (names_of (S.bytes_by_name source.old)) path.now (S.failures source.old)
        (S.failures source.new)) }
    ensures fine { OnOk result (S.failures source.new ≡ S.failures source.old) }
    ensures kept { OnOk result (names_of (S.bytes_by_name source.new)
        ≡ names_of (S.bytes_by_name source.old)) }
{
    // A law that the proof stands on; the call does nothing.
    one_text_and_blob();
    let bytes = match source.ask(alloc, Name::File(path)) {
        Ok(bytes) => bytes,
        Err(error) => return Err(BundleError::Import(error)),
    };
    let file = match from_slice_as(alloc, &bytes, required) {
        Ok(file) => file,
        Err(error) => return Err(BundleError::Import(error)),
    };
    let Gltf { document, blob } = file;
    let value = value_of(alloc, &bytes)?;
    drop(bytes);
    let buffers = match import_buffers_from(alloc, &document, Some(source), blob) {
        Ok(buffers) => buffers,
        Err(error) => return Err(BundleError::Import(error)),
    };
    Ok(Loaded { value, buffers })
}

/// What is put into a container: the value of a file's JSON, a picture for each image that is taken
/// in, by index, and the bytes of its buffers, with those of these images behind.
#[derive(Drop)]
pub(crate) struct Gathered {
    /// The value.
    pub(crate) value: Value,
    /// The pictures.
    pub(crate) pictures: Vec<Option<Picture>>,
    /// The bytes.
    pub(crate) buffers: Vec<Data>,
}

/// Imports the file at the path, and takes in its images, but for those that stay as they are.
pub(crate) fn gather<S: NamedBytes>(
    alloc: Global,
    source: &mut S,
    path: &str,
    keep: Keep,
    required: &Required<'_>,
) -> Result<Gathered, BundleError>
    ensures gathered { IfOk result (AreGathered required.now (names_of (S.bytes_by_name source.old))
        path.now keep (S.failures source.old) (S.failures source.new)) }
    ensures refused { IfErr result (RefusesFile required.now (names_of (S.bytes_by_name source.old))
        path.now keep (S.failures source.old) (S.failures source.new)) }
{
    let Loaded { value, buffers } = load_with(alloc, source, path, required)?;
    let mut buffers = buffers;
    let pictures = pictures_of(alloc, source, &value, keep, &mut buffers)?;
    Ok(Gathered {
        value,
        pictures,
        buffers,
    })
}

/// The value of the JSON text of a file.
fn value_of(alloc: Global, bytes: &[u8]) -> Result<Value, BundleError>
    ensures value { IfOk result (λ v. IsValueOf bytes.now (view v)) }
    ensures memory { IfErr result (λ e. e ≡ Import Memory) }
{
    // The file was accepted, so it has a text, which is that of a value.
    let Ok((text, _)) = text_and_blob(bytes) else {
        return Err(BundleError::Import(Error::Memory));
    };
    match Value::from_slice(alloc, text.as_slice()) {
        Ok(value) => Ok(value),
        Err(_) => Err(BundleError::Import(Error::Memory)),
    }
}
