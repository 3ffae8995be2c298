//! The mode TRIANGLES.

ghost use Rattle.std.specs.Prelude.{◌≡◌, ◌<◌, ◌≤◌, ◌*◌, IfErr, length, option_map};
ghost use Rattle.gltf_meshopt.specs.Reading.{Reads, after};
ghost use Rattle.gltf_meshopt.specs.Streams.{Gives};
ghost use Rattle.gltf_meshopt.specs.Indices.{all_stored};
ghost use Rattle.gltf_meshopt.specs.Triangles.{two_corners, beside_edge, without_edge, triangle_at};
ghost use Rattle.gltf_meshopt.specs.Triangles.{triangles_at, start, triangles};

use crate::corners::{State, corner_at, corner_beside, enqueue, enqueue_corner};
use crate::fault::{Fault, Stop};
use crate::indices::{is_index_stride, push_index};
use crate::streams::{fault_at, parts, room};
use std::alloc::Global;

/// The bytes of `count` indices of `stride` bytes each, 2 or 4, from a stream of the mode TRIANGLES
/// (EXT_meshopt_compression, "Mode 1: triangles"). There are three indices for each triangle.
///
/// An error says why the bytes are no stream of so many indices, or that memory ran out.
pub fn decode_triangles(
    alloc: Global,
    bytes: &[u8],
    count: usize,
    stride: usize,
) -> Result<Vec<u8>, Fault>
    ensures exact { Gives (λ v. v.items) result (triangles count stride bytes.now) }
    ensures memory { IfErr result (λ e. e ≡ Fault.Memory → count * stride ≤ 12 * length bytes.now) }
{
    if !is_index_stride(stride) {
        return Err(Fault::Stride);
    }
    if count % 3 != 0 {
        return Err(Fault::Count);
    }
    let (body, table) = parts(bytes, 0xe1, 16, count / 3)?;
    let (codes, data) = body.split_at(count / 3);
    let mut out = room(alloc, count, stride)?;
    let read = push_triangles(&mut out, codes, table, data, stride);
    match fault_at(bytes.len() - 16, read) {
        None => Ok(out),
        Some(fault) => Err(fault),
    }
}

/// Appends the bytes of the corners of a triangle for each code, and returns what follows them.
fn push_triangles<'a>(
    out: &mut Vec<u8>,
    codes: &[u8],
    table: &[u8],
    bytes: &'a [u8],
    stride: usize,
) -> Result<&'a [u8], Stop>
    requires stride_is { stride ≤ 4 }
    requires table_len { length table.now ≡ 16 }
    ensures { Reads (λ rest. (out.new.items, rest.now)) result
        (after out.old.items (all_stored stride (triangles_at table.now codes.now start
        bytes.now))) }
{
    let mut state = State {
        firsts: [u32::MAX; 16],
        seconds: [u32::MAX; 16],
        vertices: [u32::MAX; 16],
        next: 0,
        last: 0,
    };
    let mut rest = bytes;
    for code in codes {
        let Some((a, b, c, following)) = triangle(&mut state, table, *code, rest) else {
            return Err(Stop::Cut(rest.len()));
        };
        push_index(out, a, stride)?;
        push_index(out, b, stride)?;
        push_index(out, c, stride)?;
        rest = following;
    }
    Ok(rest)
}

/// The corners of the triangle of a code, and what follows them.
fn triangle<'a>(
    state: &mut State,
    table: &[u8],
    code: u8,
    bytes: &'a [u8],
) -> Option<(u32, u32, u32, &'a [u8])>
    requires { length table.now ≡ 16 }
    ensures { option_map (λ x. ((x.0, x.1, x.2), state.new, x.3.now)) result ≡ triangle_at
        table.now code state.old bytes.now }
{
    if code < 0xf0 {
        beside_edge(state, code, bytes)
    } else {
        without_edge(state, table, code % 16, bytes)
    }
}

/// The corners of a triangle with an edge of the queue, and what follows them.
#[tactic(auto, unfolding(crate::specs::Triangles::beside_edge))]
fn beside_edge<'a>(
    state: &mut State,
    code: u8,
    bytes: &'a [u8],
) -> Option<(u32, u32, u32, &'a [u8])>
    requires { code < 240 }
    ensures { option_map (λ x. ((x.0, x.1, x.2), state.new, x.3.now)) result ≡ beside_edge code
        state.old bytes.now }
{
    let a = state.firsts[code as usize / 16];
    let b = state.seconds[code as usize / 16];
    let (c, rest) = corner_beside(code % 16, &state.vertices, state.next, state.last, bytes)?;
    enqueue(&mut state.firsts, c.index);
    enqueue(&mut state.firsts, a);
    enqueue(&mut state.seconds, b);
    enqueue(&mut state.seconds, c.index);
    enqueue_corner(&mut state.vertices, c);
    state.next = c.next;
    state.last = c.last;
    Some((a, b, c.index, rest))
}

/// The corners of a triangle with no known edge, and what follows them.
#[tactic(auto, unfolding(crate::specs::Triangles::without_edge))]
fn without_edge<'a>(
    state: &mut State,
    table: &[u8],
    bits: u8,
    bytes: &'a [u8],
) -> Option<(u32, u32, u32, &'a [u8])>
    requires bits { bits < 16 }
    requires table_len { length table.now ≡ 16 }
    ensures { option_map (λ x. ((x.0, x.1, x.2), state.new, x.3.now)) result ≡ without_edge
        table.now bits state.old bytes.now }
{
    let stored = 14 <= bits;
    let (two, rest) = two_corners(table, bits, bytes)?;
    let next = if stored && two == 0 { 0 } else { state.next };
    let first = if bits == 15 { 15 } else { 0 };
    let (a, rest) = corner_at(true, first, &state.vertices, next, state.last, rest)?;
    let (b, rest) = corner_at(stored, two / 16, &state.vertices, a.next, a.last, rest)?;
    let (c, rest) = corner_at(stored, two % 16, &state.vertices, b.next, b.last, rest)?;
    enqueue(&mut state.firsts, b.index);
    enqueue(&mut state.firsts, c.index);
    enqueue(&mut state.firsts, a.index);
    enqueue(&mut state.seconds, a.index);
    enqueue(&mut state.seconds, b.index);
    enqueue(&mut state.seconds, c.index);
    enqueue_corner(&mut state.vertices, a);
    enqueue_corner(&mut state.vertices, b);
    enqueue_corner(&mut state.vertices, c);
    state.next = c.next;
    state.last = c.last;
    Some((a.index, b.index, c.index, rest))
}

/// The byte with the bits of the second and the third corner, and what follows it.
fn two_corners<'a>(table: &[u8], bits: u8, bytes: &'a [u8]) -> Option<(u8, &'a [u8])>
    requires { length table.now ≡ 16 }
    ensures { option_map (λ x. (x.0, x.1.now)) result ≡ two_corners table.now bits bytes.now }
{
    if bits < 14 {
        return Some((table[bits as usize], bytes));
    }
    let [two, rest @ ..] = bytes else {
        return None;
    };
    Some((*two, rest))
}
