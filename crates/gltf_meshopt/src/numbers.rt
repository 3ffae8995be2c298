//! Numbers of the modes TRIANGLES and INDICES.

ghost use Rattle.std.specs.Prelude.{◌≡◌, ◌<◌, ◌^◌, option_map};
ghost use Rattle.gltf_meshopt.specs.Numbers.{number_at, stepped};

/// The number at the front, and the bytes after it; `None` where the bytes end before it does.
#[tactic(auto, unfolding(crate::specs::Numbers::number_at))]
pub fn number(bytes: &[u8]) -> Option<(u32, &[u8])>
    ensures { option_map (λ x. (x.0, x.1.now)) result ≡ number_at bytes.now }
{
    let [a, rest @ ..] = bytes else {
        return None;
    };
    let first = u64::from(*a);
    if first < 128 {
        return Some(((first % (1 << 32)) as u32, rest));
    }
    let [b, rest @ ..] = rest else {
        return None;
    };
    let second = u64::from(*b);
    if second < 128 {
        let value = first % 128 + 128 * second;
        return Some(((value % (1 << 32)) as u32, rest));
    }
    let [c, rest @ ..] = rest else {
        return None;
    };
    let third = u64::from(*c);
    if third < 128 {
        let value = first % 128 + 128 * (second % 128 + 128 * third);
        return Some(((value % (1 << 32)) as u32, rest));
    }
    let [d, rest @ ..] = rest else {
        return None;
    };
    let fourth = u64::from(*d);
    if fourth < 128 {
        let value = first % 128 + 128 * (second % 128 + 128 * (third % 128 + 128 * fourth));
        return Some(((value % (1 << 32)) as u32, rest));
    }
    let [e, rest @ ..] = rest else {
        return None;
    };
    let fifth = u64::from(*e) % 128;
    let value = first % 128
        + 128 * (second % 128 + 128 * (third % 128 + 128 * (fourth % 128 + 128 * fifth)));
    Some(((value % (1 << 32)) as u32, rest))
}

/// The number a step away, in zigzag.
pub fn step(last: u32, step: u32) -> u32
    ensures { result ≡ stepped (2 ^ 32) last step }
{
    let last = u64::from(last);
    let step = u64::from(step);
    let limit: u64 = 1 << 32;
    if step % 2 == 0 {
        ((last + step / 2) % limit) as u32
    } else {
        ((last + limit - (step + 1) / 2) % limit) as u32
    }
}
