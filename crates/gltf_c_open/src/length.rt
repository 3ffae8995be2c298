//! Whether a buffer has as many bytes as it declares.
ghost use Rattle.std.specs.Prelude.{◌≡◌};
ghost use Rattle.gltf_c_open.specs.Lengths.{filled, is_enough};

/// Whether so many bytes are enough for a buffer that declares so many (glTF 2.0, section 5.10.2).
/// Unless lengths are exact, the zeros after them up to a multiple of four count too.
pub(crate) fn is_enough(there: usize, declared: u64, exact: bool) -> bool
    ensures { result ≡ is_enough exact declared there }
{
    let there = there as u64;
    declared.saturating_sub(there) <= filled(there, exact)
}

/// How many zeros after so many bytes count.
fn filled(there: u64, exact: bool) -> u64
    ensures { result ≡ filled exact there }
{
    if exact { 0 } else { (4 - there % 4) % 4 }
}
