//! Documents of which the rules are checked, but for the required extensions that pass.
ghost use Rattle.std.specs.Prelude.{◌≡◌, [], IfOk, IfErr};
ghost use Rattle.gltf_validation.specs.Documents.{Faults};
ghost use Rattle.gltf.specs.Errors.{OutOfMemoryOr, TellsRules};
ghost use Rattle.gltf_options.specs.Besides.{IsBesides, listed};
ghost use Rattle.gltf_options.specs.Broken.{RefusesBesides};
ghost use Rattle.gltf_required.specs.Required.{IsLeft, IsBare, TellsBare, TellsAs};

use crate::required::Required;
use gltf::{Document, Gltf, RawGltf, Result};
use gltf_json::root::Root;
use gltf_options::{Opened, Options, without_names};
use std::alloc::Global;
use std::mem;

/// The document of these records, without the names in `extensionsRequired` that pass, where it
/// breaks no rule then: with [`Required::Supported`] the document as it is, with
/// [`Required::Also`] and [`Required::Mended`] without these names, with [`Required::All`] and
/// [`Required::AllMended`] without any. Nothing is mended here.
///
/// The error is [`gltf::Error::Validation`] with all rules that are broken, at their places in the
/// file, or [`gltf::Error::Memory`], which says nothing of the records.
pub fn checked(alloc: Global, root: Root, required: &Required<'_>) -> Result<Document>
    ensures left { IfOk result (λ document. IsLeft required.now root document) }
    ensures rules { IfOk result (λ document. Faults document ≡ []) }
    ensures refused { IfErr result (OutOfMemoryOr (TellsAs required.now root)) }
{
    match required {
        Required::Supported => whole(alloc, root),
        Required::Also(options) => besides(alloc, root, options),
        Required::All => bare(alloc, root),
        Required::Mended(options) => {
            let names = Options {
                also_supported: options.also_supported,
            };
            besides(alloc, root, &names)
        }
        Required::AllMended(_) => bare(alloc, root),
    }
}

/// The document as it is.
fn whole(alloc: Global, root: Root) -> Result<Document>
    ensures left { IfOk result (λ document. document ≡ root) }
    ensures rules { IfOk result (λ document. Faults document ≡ []) }
    ensures refused { IfErr result (OutOfMemoryOr (TellsRules root)) }
{
    Document::from_json(alloc, root)
}

/// The document without the names that the caller handles.
fn besides(alloc: Global, root: Root, options: &Options<'_>) -> Result<Document>
    ensures left { IfOk result (λ document. IsBesides (listed options.now) root document) }
    ensures rules { IfOk result (λ document. Faults document ≡ []) }
    ensures refused { IfErr result (OutOfMemoryOr (RefusesBesides (listed options.now) root)) }
{
    let raw = RawGltf {
        document: Document::from_json_without_validation(root),
        blob: None,
    };
    let opened = without_names(alloc, raw, options)?;
    let Opened {
        gltf: Gltf { document, blob },
        also_required,
    } = opened;
    drop(blob);
    drop(also_required);
    Ok(document)
}

/// The document without any name in `extensionsRequired`.
fn bare(alloc: Global, root: Root) -> Result<Document>
    ensures left { IfOk result (λ document. IsBare root document) }
    ensures rules { IfOk result (λ document. Faults document ≡ []) }
    ensures refused { IfErr result (OutOfMemoryOr (TellsBare root)) }
{
    let left = without_any(alloc, root);
    Document::from_json(alloc, left)
}

/// The records without any name in `extensionsRequired`.
fn without_any(alloc: Global, root: Root) -> Root
    ensures { IsBare root result }
{
    let mut left = root;
    let names = mem::replace(&mut left.extensions_required, Vec::new(alloc));
    drop(names);
    left
}
