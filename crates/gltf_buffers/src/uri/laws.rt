//! Laws of URIs. Each is a statement over the definitions of `specs/`, proved as the contract of a
//! function that does nothing.
ghost use Rattle.gltf_buffers.specs.UriLaws.{CutsAtFirst, StripsPrefix};

/// A text is cut round the first place at which a mark stands in it, and is whole exactly where the
/// mark stands nowhere.
pub fn cuts_at_first()
    ensures { CutsAtFirst }
{}

/// What is left of a text after a prefix is what follows it, and nothing is left exactly where the
/// text begins otherwise.
pub fn strips_prefix()
    ensures { StripsPrefix }
{}
