//! Laws of repacking. Each is a statement over definitions, proved as the contract of a function
//! that does nothing, from the laws of the container and the definitions of the loader.
ghost use Rattle.gltf_pack.specs.Laws.{SpacesBehind, OneAnswer, RepackedAgain, ImportKept};

use gltf::laws::one_text_and_blob;
use gltf_glb::laws::{filled_once, reads_back};

/// Spaces after a JSON text do not change what is read from it: `serde_json` reads a text by its
/// tokens, and such spaces are in none and make none.
pub fn spaces_behind()
    ensures { SpacesBehind }
{}

/// The bytes of a file are repacked to one answer at most.
pub fn one_answer()
    ensures { OneAnswer }
{
    one_text_and_blob();
}

/// What was repacked is repacked to the same bytes, and refused only where there is not enough
/// memory.
pub fn repacked_again()
    ensures { RepackedAgain }
{
    one_text_and_blob();
    reads_back();
    filled_once();
}

/// What was repacked is imported where the file was, with the same document and the same buffers,
/// and refused with the same faults.
pub fn import_kept()
    ensures { ImportKept }
{
    one_text_and_blob();
    reads_back();
    spaces_behind();
}
