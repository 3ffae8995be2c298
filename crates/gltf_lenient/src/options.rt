//! What a caller handles, and what is mended.
ghost use Rattle.std.specs.Prelude.{◌≡◌, []};
ghost use Rattle.gltf_lenient.specs.Import.{also_of};
ghost use Rattle.gltf_lenient.specs.Nothing.{MendsNothing};

use crate::laws::what_asks_for_nothing_mends_nothing;
use gltf_mend::Mends;

/// What a caller handles beside what the loader supports, and what is mended of a document.
#[derive(Clone, Copy, Debug)]
pub struct Options<'a> {
    /// The names of further extensions that a document may require, as in
    /// [`gltf_options::Options`].
    pub also_supported: &'a [&'a str],
    /// What is mended before the records are read.
    pub mends: Mends<'a>,
}

impl<'a> Options<'a> {
    /// No further name, and nothing that is mended: the answers are those of `gltf_options` with
    /// no name.
    pub fn new() -> Options<'a>
        ensures names { also_of result ≡ [] }
        ensures mends { MendsNothing result.mends }
    {
        // A law that the proof stands on; the call does nothing.
        what_asks_for_nothing_mends_nothing();
        Options {
            also_supported: &[],
            mends: Mends {
                skip_channels_without_node: false,
                skip_unknown_attributes: false,
                texture_sources: &[],
            },
        }
    }
}
