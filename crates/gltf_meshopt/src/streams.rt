//! The parts that streams of all modes have, and room for their items.

ghost use Rattle.std.specs.Prelude.{◌≡◌, ◌+◌, ◌*◌, ◌-◌, ◌<◌, ◌^◌, ◌≤◌, IfOk, OnOk, IfErr, IfNone};
ghost use Rattle.std.specs.Prelude.{IfSome, Ok, List, [], ℕ, Result, length, take, drop};
ghost use Rattle.gltf_meshopt.specs.Reading.{Reads};
ghost use Rattle.gltf_meshopt.specs.declared.fault.Fault.{Fault};
ghost use Rattle.gltf_meshopt.specs.Streams.{Fails, whole, held};

use crate::fault::{Fault, Stop};
use std::alloc::Global;

/// The body and the tail of a stream that begins with `header` and ends with `tail` bytes more, if
/// the body has `least` bytes or more.
#[tactic(auto, unfolding(crate::specs::Streams::held))]
pub(crate) fn parts(
    bytes: &[u8],
    header: u8,
    tail: usize,
    least: usize,
) -> Result<(&[u8], &[u8]), Fault>
    ensures ok { IfOk result (λ x. (read : List ℕ → List ℕ → Result (List ℕ × List ℕ) ℕ)
        → held header tail least read bytes.now ≡ whole (length bytes.now - tail) (read x.0.now
        x.1.now)) }
    ensures err { IfErr result (λ e. (read : List ℕ → List ℕ → Result (List ℕ × List ℕ) ℕ)
        → Fails e (held header tail least read bytes.now)) }
    ensures not_memory { IfErr result (λ e. e ≡ Fault.Memory → ⊥) }
    ensures size { IfOk result (λ x. least + tail + 1 ≤ length bytes.now) }
    ensures body { IfOk result (λ x. least ≤ length x.0.now) }
    ensures tail { IfOk result (λ x. x.1.now ≡ drop (length bytes.now - tail) bytes.now) }
{
    if bytes.len() <= tail || bytes.len() - tail <= least {
        return Err(Fault::Short);
    }
    if bytes[0] != header {
        return Err(Fault::Header);
    }
    let end = bytes.len() - tail;
    Ok((&bytes[1..end], &bytes[end..]))
}

/// Why what was read of a body that ends at `end` is no stream: it stopped, or bytes are left.
pub(crate) fn fault_at(end: usize, read: Result<&[u8], Stop>) -> Option<Fault>
    ensures none { IfNone result ((items : List ℕ) (read_is : Result (List ℕ × List ℕ) ℕ)
        → Reads (λ rest. (items, rest.now)) read.entry read_is → whole end read_is ≡ Ok items) }
    ensures some { IfSome result (λ e. (items : List ℕ) (read_is : Result (List ℕ × List ℕ) ℕ)
        → Reads (λ rest. (items, rest.now)) read.entry read_is → Fails e (whole end read_is)) }
{
    match read {
        Ok([]) => None,
        Ok(rest) => Some(Fault::Left(end.saturating_sub(rest.len()))),
        Err(Stop::Cut(left)) => Some(Fault::Cut(end.saturating_sub(left))),
        Err(Stop::Memory) => Some(Fault::Memory),
    }
}

/// Room for `count` items of `stride` bytes.
pub(crate) fn room(alloc: Global, count: usize, stride: usize) -> Result<Vec<u8>, Fault>
    ensures ok { IfOk result (λ v. v.items ≡ []) }
    ensures size { OnOk result (count * stride < 2 ^ 64) }
    ensures err { IfErr result (λ e. e ≡ Fault.Memory) }
{
    match count.checked_mul(stride) {
        Some(size) => Ok(Vec::with_capacity(alloc, size)?),
        None => Err(Fault::Memory),
    }
}
