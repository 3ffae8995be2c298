//! Laws of what files may require. Each is a statement over definitions, proved as the contract of
//! a function that does nothing.
ghost use Rattle.gltf_required.specs.Laws.{SupportedIsTheImport, RefusedAsByTheImport};
ghost use Rattle.gltf_required.specs.Laws.{MendedIsTheImport, RefusedAsByTheMended};
ghost use Rattle.gltf_required.specs.Laws.{AreOfOneDocument};

/// What is accepted with [`crate::Required::Supported`] is what the calls of `gltf` accept.
pub fn what_is_supported_is_imported()
    ensures { SupportedIsTheImport }
{}

/// What is refused with [`crate::Required::Supported`] is refused by the calls of `gltf`, with the
/// same error.
pub fn what_is_not_supported_is_refused()
    ensures { RefusedAsByTheImport }
{}

/// What is accepted with [`crate::Required::Mended`] is what the calls of `gltf_lenient` accept with
/// the same options, whose document is what is left.
pub fn what_is_mended_is_imported()
    ensures { MendedIsTheImport }
{}

/// What is refused with [`crate::Required::Mended`] is refused by the calls of `gltf_lenient` with
/// the same options, with the same error.
pub fn what_is_not_mended_is_refused()
    ensures { RefusedAsByTheMended }
{}

/// The document that is left differs from that of the file in `extensionsRequired` alone.
pub fn all_else_is_left()
    ensures { AreOfOneDocument }
{}
