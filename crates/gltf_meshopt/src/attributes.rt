//! The mode ATTRIBUTES.

ghost use Rattle.std.specs.Prelude.{◌≡◌, ◌<◌, ◌≤◌, ◌+◌, ◌*◌, ◌^◌, max, true, IfErr, length};
ghost use Rattle.gltf_meshopt.specs.Reading.{Reads, after};
ghost use Rattle.gltf_meshopt.specs.Streams.{Gives};
ghost use Rattle.gltf_meshopt.specs.Attributes.{blocks_at, block_size, elements_at, tail_size};
ghost use Rattle.gltf_meshopt.specs.Attributes.{is_attribute_stride, attributes};

use crate::columns::push_columns;
use crate::elements::push_elements;
use crate::fault::{Fault, Stop};
use crate::streams::{fault_at, parts, room};
use std::alloc::Global;

/// The bytes of `count` elements of `stride` bytes each, a multiple of 4 to 256, from a stream of
/// the mode ATTRIBUTES (EXT_meshopt_compression, "Mode 0: attributes").
///
/// An error says why the bytes are no stream of so many elements, or that memory ran out.
pub fn decode_attributes(
    alloc: Global,
    bytes: &[u8],
    count: usize,
    stride: usize,
) -> Result<Vec<u8>, Fault>
    ensures exact { Gives (λ v. v.items) result (attributes count stride bytes.now) }
    ensures memory { IfErr result (λ e. e ≡ Fault.Memory → count * stride ≤ 64 * length bytes.now) }
{
    if !is_attribute_stride(stride) {
        return Err(Fault::Stride);
    }
    let tail_len = stride.max(32);
    let Some(least) = (count / 64).checked_mul(stride) else {
        return Err(Fault::Short);
    };
    let (body, tail) = parts(bytes, 0xa0, tail_len, least)?;
    let mut out = room(alloc, count, stride)?;
    let read = push_attributes(alloc, &mut out, body, tail, count, stride);
    match fault_at(bytes.len() - tail_len, read) {
        None => Ok(out),
        Some(fault) => Err(fault),
    }
}

/// Whether elements may have so many bytes.
fn is_attribute_stride(stride: usize) -> bool
    ensures { result ≡ is_attribute_stride stride }
{
    4 <= stride && stride <= 256 && stride % 4 == 0
}

/// Appends the bytes of `count` elements, and returns what follows them.
fn push_attributes<'a>(
    alloc: Global,
    out: &mut Vec<u8>,
    body: &'a [u8],
    tail: &[u8],
    count: usize,
    stride: usize,
) -> Result<&'a [u8], Stop>
    requires stride_is { is_attribute_stride stride ≡ true }
    requires tail_len { length tail.now ≡ tail_size stride }
    requires small { count * stride < 2 ^ 64 }
    ensures { Reads (λ rest. (out.new.items, rest.now)) result
        (after out.old.items (elements_at count stride body.now tail.now)) }
{
    let (_, baseline) = tail.split_at(tail.len() - stride);
    let mut last = Vec::from_slice(alloc, baseline)?;
    let mut deltas = Vec::with_capacity(alloc, 8192)?;
    let most = block_size(stride);
    let blocks = (count + most - 1) / most;
    push_blocks(out, &mut last, &mut deltas, most, blocks, count, body)
}

/// The elements of a whole block.
fn block_size(stride: usize) -> usize
    requires stride_in { 4 ≤ stride }
    requires stride_below { stride ≤ 256 }
    ensures value { result ≡ block_size stride }
    ensures some { 0 < result }
    ensures most { result ≤ 256 }
{
    (8192 / stride / 16 * 16).min(256)
}

/// Appends the bytes of so many blocks of `most` elements, the last one with those that are left,
/// and returns what follows them. `last` is the element before the first one.
fn push_blocks<'a>(
    out: &mut Vec<u8>,
    last: &mut [u8],
    deltas: &mut Vec<u8>,
    most: usize,
    blocks: usize,
    count: usize,
    bytes: &'a [u8],
) -> Result<&'a [u8], Stop>
    requires { most ≤ 256 }
    ensures { Reads (λ rest. (out.new.items, rest.now)) result
        (after out.old.items (blocks_at most blocks count last.old bytes.now)) }
{
    let mut left = count;
    let mut rest = bytes;
    for _ in 0..blocks {
        let size = most.min(left);
        let groups = (size + 15) / 16;
        deltas.clear();
        rest = push_columns(deltas, last.len(), groups, rest)?;
        push_elements(out, last, deltas, 16 * groups, size)?;
        left -= size;
    }
    Ok(rest)
}
