//! Laws of mending. Each is a statement over the definitions of `specs/`, proved as the contract of
//! a function that does nothing.
ghost use Rattle.gltf_lenient.specs.Laws.{AreTheSameDocuments, AreRefusedAlike};
ghost use Rattle.gltf_lenient.specs.Laws.{AreTheSameImports, AreImportsRefusedAlike};
ghost use Rattle.gltf_lenient.specs.Laws.{AreTheSameFiles, AreFilesRefusedAlike};
ghost use Rattle.gltf_lenient.specs.Laws.{AreReadAlike, AreReadingsRefusedAlike};
ghost use Rattle.gltf_lenient.specs.Nothing.{WhatAsksForNothingMendsNothing};

/// Nothing is mended where neither channels nor attributes are to be left out, and no extension
/// says which image a texture has.
pub fn what_asks_for_nothing_mends_nothing()
    ensures { WhatAsksForNothingMendsNothing }
{}

/// Where the value in some bytes has nothing to mend, the answers over these bytes are those of
/// `gltf_options` with the same names: what is accepted, what is read of it, and which error says
/// that it is not, with buffers and without.
pub fn with_nothing_to_mend_bytes_are_read_as_they_stand()
    ensures documents { AreTheSameDocuments }
    ensures refused { AreRefusedAlike }
    ensures imports { AreTheSameImports }
    ensures imports_refused { AreImportsRefusedAlike }
{}

/// Where nothing is mended, so are the answers over files of a source, and out of a reader.
pub fn where_nothing_is_mended_files_are_read_as_they_stand()
    ensures files { AreTheSameFiles }
    ensures files_refused { AreFilesRefusedAlike }
    ensures readings { AreReadAlike }
    ensures readings_refused { AreReadingsRefusedAlike }
{}
