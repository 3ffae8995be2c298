//! Casts of two, three and four numbers, each on its own.

ghost use Rattle.std.specs.Prelude.{◌≡◌, map};
ghost use Rattle.gltf_cast.specs.Casts.{cast};

use crate::number::Number;
use crate::source::Source;

/// Casts two numbers.
pub(crate) fn cast_two<S: Source, N: Number>(x: [S; 2]) -> [N; 2]
    ensures { result ≡ map (λ y. N.of_whole (cast S.kind N.kind (S.whole y))) x }
{
    [x[0].to_number(), x[1].to_number()]
}

/// Casts three numbers.
pub(crate) fn cast_three<S: Source, N: Number>(x: [S; 3]) -> [N; 3]
    ensures { result ≡ map (λ y. N.of_whole (cast S.kind N.kind (S.whole y))) x }
{
    [x[0].to_number(), x[1].to_number(), x[2].to_number()]
}

/// Casts four numbers.
pub(crate) fn cast_four<S: Source, N: Number>(x: [S; 4]) -> [N; 4]
    ensures { result ≡ map (λ y. N.of_whole (cast S.kind N.kind (S.whole y))) x }
{
    [
        x[0].to_number(),
        x[1].to_number(),
        x[2].to_number(),
        x[3].to_number(),
    ]
}
