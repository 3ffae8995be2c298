//! Laws of what is written. Each is a statement over definitions, proved as the contract of a
//! function that does nothing.
ghost use Rattle.gltf_convert.specs.Laws.{HasPathsApart};

use gltf_split::laws::names_are_apart;

/// No two files of a set have the same path, and none has that of the text.
pub fn paths_are_apart()
    ensures { HasPathsApart }
{
    names_are_apart();
}
