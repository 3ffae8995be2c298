//! The mode INDICES.

ghost use Rattle.std.specs.Prelude.{◌≡◌, ◌≤◌, ◌*◌, ◌++◌, OnOk, IfErr, length};
ghost use Rattle.gltf_meshopt.specs.Reading.{Reads, after};
ghost use Rattle.gltf_meshopt.specs.Streams.{Gives};
ghost use Rattle.gltf_meshopt.specs.Indices.{stored, all_stored, index_of, indices_at, indices};
ghost use Rattle.gltf_meshopt.specs.Indices.{is_index_stride};

use crate::fault::{Fault, Stop};
use crate::numbers::{number, step};
use crate::streams::{fault_at, parts, room};
use std::alloc::{AllocError, Global};

/// The bytes of `count` indices of `stride` bytes each, 2 or 4, from a stream of the mode INDICES
/// (EXT_meshopt_compression, "Mode 2: indices").
///
/// An error says why the bytes are no stream of so many indices, or that memory ran out.
#[tactic(auto, unfolding(crate::specs::Indices::indices))]
pub fn decode_indices(
    alloc: Global,
    bytes: &[u8],
    count: usize,
    stride: usize,
) -> Result<Vec<u8>, Fault>
    ensures exact { Gives (λ v. v.items) result (indices count stride bytes.now) }
    ensures memory { IfErr result (λ e. e ≡ Fault.Memory → count * stride ≤ 4 * length bytes.now) }
{
    if !is_index_stride(stride) {
        return Err(Fault::Stride);
    }
    let (body, _) = parts(bytes, 0xd1, 4, count)?;
    let mut out = room(alloc, count, stride)?;
    let read = push_indices(&mut out, body, count, stride);
    match fault_at(bytes.len() - 4, read) {
        None => Ok(out),
        Some(fault) => Err(fault),
    }
}

/// Whether indices may have so many bytes.
pub(crate) fn is_index_stride(stride: usize) -> bool
    ensures { result ≡ is_index_stride stride }
{
    stride == 2 || stride == 4
}

/// Appends the bytes of `count` indices, and returns what follows them.
fn push_indices<'a>(
    out: &mut Vec<u8>,
    bytes: &'a [u8],
    count: usize,
    stride: usize,
) -> Result<&'a [u8], Stop>
    requires { stride ≤ 4 }
    ensures { Reads (λ rest. (out.new.items, rest.now)) result
        (after out.old.items (all_stored stride (indices_at count 0 0 bytes.now))) }
{
    let mut even = 0;
    let mut odd = 0;
    let mut rest = bytes;
    for _ in 0..count {
        let Some((number, following)) = number(rest) else {
            return Err(Stop::Cut(rest.len()));
        };
        let index = index_of(even, odd, number);
        push_index(out, index, stride)?;
        if number % 2 == 0 {
            even = index;
        } else {
            odd = index;
        }
        rest = following;
    }
    Ok(rest)
}

/// The index that a number stands for: the next of one of two baselines.
fn index_of(even: u32, odd: u32, number: u32) -> u32
    ensures { result ≡ index_of even odd number }
{
    let baseline = if number % 2 == 0 { even } else { odd };
    step(baseline, number / 2)
}

/// Appends the bytes of an index.
pub(crate) fn push_index(out: &mut Vec<u8>, index: u32, stride: usize) -> Result<(), AllocError>
    requires { stride ≤ 4 }
    ensures { OnOk result (out.new.items ≡ out.old.items ++ stored stride index) }
{
    let bytes = index.to_le_bytes();
    out.extend_from_slice(&bytes[..stride])
}
