//! Groups of sixteen deltas.

ghost use Rattle.std.specs.Prelude.{◌≡◌, ◌<◌, ◌∷◌, [], option_map, IfSome, length};
ghost use Rattle.std.specs.List.{flat_map};
ghost use Rattle.gltf_meshopt.specs.Attributes.{pairs, halves, deltas_of, group_at};

/// The sixteen cells of four bytes.
fn pairs_of(a: u8, b: u8, c: u8, d: u8) -> [u8; 16]
    ensures { result ≡ flat_map pairs (a ∷ b ∷ c ∷ d ∷ []) }
{
    [
        a / 64,
        a / 16 % 4,
        a / 4 % 4,
        a % 4,
        b / 64,
        b / 16 % 4,
        b / 4 % 4,
        b % 4,
        c / 64,
        c / 16 % 4,
        c / 4 % 4,
        c % 4,
        d / 64,
        d / 16 % 4,
        d / 4 % 4,
        d % 4,
    ]
}

/// The sixteen cells of eight bytes.
fn halves_of(a: u8, b: u8, c: u8, d: u8, e: u8, f: u8, g: u8, h: u8) -> [u8; 16]
    ensures { result ≡ flat_map halves (a ∷ b ∷ c ∷ d ∷ e ∷ f ∷ g ∷ h ∷ []) }
{
    [
        a / 16,
        a % 16,
        b / 16,
        b % 16,
        c / 16,
        c % 16,
        d / 16,
        d % 16,
        e / 16,
        e % 16,
        f / 16,
        f % 16,
        g / 16,
        g % 16,
        h / 16,
        h % 16,
    ]
}

/// Puts the bytes that follow in place of the cells that stand for them, and returns what is left.
fn fill<'a>(cells: &mut [u8], greatest: u8, bytes: &'a [u8]) -> Option<&'a [u8]>
    ensures { option_map (λ rest. (cells.new, rest.now)) result ≡ deltas_of greatest cells.old
        bytes.now }
{
    let mut rest = bytes;
    for cell in cells.iter_mut() {
        if *cell == greatest {
            let [next, following @ ..] = rest else {
                return None;
            };
            *cell = *next;
            rest = following;
        }
    }
    Some(rest)
}

/// The group at the front, and what follows it; `None` where the bytes end before it does.
#[tactic(auto, unfolding(crate::specs::Attributes::group_at))]
pub(crate) fn group(width: u8, bytes: &[u8]) -> Option<([u8; 16], &[u8])>
    requires { width < 4 }
    ensures value { option_map (λ x. (x.0, x.1.now)) result ≡ group_at width bytes.now }
    ensures len { IfSome result (λ x. length x.0 ≡ 16) }
{
    match width {
        0 => Some(([0; 16], bytes)),
        1 => {
            let [a, b, c, d, extra @ ..] = bytes else {
                return None;
            };
            let mut cells = pairs_of(*a, *b, *c, *d);
            let rest = fill(&mut cells, 3, extra)?;
            Some((cells, rest))
        }
        2 => {
            let [a, b, c, d, e, f, g, h, extra @ ..] = bytes else {
                return None;
            };
            let mut cells = halves_of(*a, *b, *c, *d, *e, *f, *g, *h);
            let rest = fill(&mut cells, 15, extra)?;
            Some((cells, rest))
        }
        _ => {
            let [a, b, c, d, e, f, g, h, i, j, k, l, m, n, o, p, rest @ ..] = bytes else {
                return None;
            };
            let deltas = [
                *a, *b, *c, *d, *e, *f, *g, *h, *i, *j, *k, *l, *m, *n, *o, *p,
            ];
            Some((deltas, rest))
        }
    }
}
