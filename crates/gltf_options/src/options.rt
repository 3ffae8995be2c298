//! What a caller handles beside what the loader supports.
ghost use Rattle.std.specs.Prelude.{◌≡◌, []};
ghost use Rattle.gltf_options.specs.Besides.{listed};

/// What a caller handles beside what the loader supports.
#[derive(Clone, Copy, Debug)]
pub struct Options<'a> {
    /// The names of further extensions that a document may require (glTF 2.0, section 3.12). A
    /// name counts whole, byte by byte.
    pub also_supported: &'a [&'a str],
}

impl<'a> Options<'a> {
    /// No further name: the answers are those of the calls of `gltf`.
    pub fn new() -> Options<'a>
        ensures { listed result ≡ [] }
    {
        Options {
            also_supported: &[],
        }
    }
}
