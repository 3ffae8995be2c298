//! Which extensions a document may require, and what is mended of it before its records are read.
ghost use Rattle.std.specs.Prelude.{◌≡◌};
ghost use Rattle.gltf_required.specs.Required.{mends_of};

use gltf_mend::Mends;
use gltf_options::Options;

/// Which extensions a document may require (glTF 2.0, section 3.12, "Specifying Extensions"), and
/// what is mended of it before its records are read, as `gltf_lenient` does.
///
/// What mends a document does so for its reading alone: a caller who writes it writes it as it
/// stands.
#[derive(Clone, Copy, Debug)]
pub enum Required<'a> {
    /// Those that the loader supports.
    Supported,
    /// Those too that the caller handles.
    Also(Options<'a>),
    /// Each one: the caller keeps what it says, and reads none of it.
    All,
    /// Those too that the caller handles, of a document that is mended.
    Mended(gltf_lenient::Options<'a>),
    /// Each one, of a document that is mended.
    AllMended(Mends<'a>),
}

impl<'a> Required<'a> {
    /// What is mended, where something is.
    pub fn mends(&self) -> Option<Mends<'a>>
        ensures { result ≡ mends_of self.now }
    {
        match self {
            Required::Supported => None,
            Required::Also(_) => None,
            Required::All => None,
            Required::Mended(options) => Some(options.mends),
            Required::AllMended(mends) => Some(*mends),
        }
    }
}
