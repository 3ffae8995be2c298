//! Corners of triangles, and the queues that they come from.

ghost use Rattle.std.specs.Prelude.{◌≡◌, ◌<◌, ◌≤◌, Bool, option_map, length};
ghost use Rattle.gltf_meshopt.specs.Triangles.{enqueue, queued, new_corner, stored_corner};
ghost use Rattle.gltf_meshopt.specs.Triangles.{corner_beside, corner_at};

use crate::numbers::{number, step};

/// The vertices and edges that were met before, the newest first.
#[derive(Drop)]
pub(crate) struct State {
    /// The first vertices of the edges.
    pub(crate) firsts: [u32; 16],
    /// The second vertices of the edges.
    pub(crate) seconds: [u32; 16],
    /// The vertices.
    pub(crate) vertices: [u32; 16],
    /// The next new vertex.
    pub(crate) next: u32,
    /// The last vertex that was stored.
    pub(crate) last: u32,
}

/// A corner of a triangle.
#[derive(Clone, Copy)]
pub(crate) struct Corner {
    /// Its vertex.
    pub(crate) index: u32,
    /// Whether the vertex goes into the queue.
    pub(crate) queued: bool,
    /// The next new vertex after it.
    pub(crate) next: u32,
    /// The last vertex that was stored, after it.
    pub(crate) last: u32,
}

/// Puts an item at the front of a queue, and drops the one at its end.
pub(crate) fn enqueue(queue: &mut [u32; 16], item: u32)
    ensures { queue.new ≡ enqueue item queue.old }
{
    let [a, b, c, d, e, f, g, h, i, j, k, l, m, n, o, _] = *queue;
    *queue = [item, a, b, c, d, e, f, g, h, i, j, k, l, m, n, o];
}

/// Puts the vertex of a corner into the queue, if it goes there.
pub(crate) fn enqueue_corner(queue: &mut [u32; 16], corner: Corner)
    ensures { queue.new ≡ queued corner queue.old }
{
    if corner.queued {
        enqueue(queue, corner.index);
    }
}

/// The next new vertex.
fn new_corner(next: u32, last: u32) -> Corner
    ensures { result ≡ new_corner next last }
{
    let following = ((u64::from(next) + 1) % (1 << 32)) as u32;
    Corner {
        index: next,
        queued: true,
        next: following,
        last,
    }
}

/// A vertex that is stored as a step, and what follows it.
fn stored_corner(next: u32, last: u32, bytes: &[u8]) -> Option<(Corner, &[u8])>
    ensures { option_map (λ x. (x.0, x.1.now)) result ≡ stored_corner next last bytes.now }
{
    let (number, rest) = number(bytes)?;
    let index = step(last, number);
    Some((
        Corner {
            index,
            queued: true,
            next,
            last: index,
        },
        rest,
    ))
}

/// The corner that four bits name beside an edge, and what follows it.
#[tactic(auto, unfolding(crate::specs::Triangles::corner_beside))]
pub(crate) fn corner_beside<'a>(
    bits: u8,
    vertices: &[u32; 16],
    next: u32,
    last: u32,
    bytes: &'a [u8],
) -> Option<(Corner, &'a [u8])>
    ensures { option_map (λ x. (x.0, x.1.now)) result ≡ corner_beside bits vertices.now next last
        bytes.now }
{
    if bits == 0 {
        return Some((new_corner(next, last), bytes));
    }
    if bits < 13 {
        let index = vertices[bits as usize];
        return Some((
            Corner {
                index,
                queued: false,
                next,
                last,
            },
            bytes,
        ));
    }
    if bits == 13 {
        let index = ((u64::from(last) + (1 << 32) - 1) % (1 << 32)) as u32;
        return Some((
            Corner {
                index,
                queued: true,
                next,
                last: index,
            },
            bytes,
        ));
    }
    if bits == 14 {
        let index = ((u64::from(last) + 1) % (1 << 32)) as u32;
        return Some((
            Corner {
                index,
                queued: true,
                next,
                last: index,
            },
            bytes,
        ));
    }
    stored_corner(next, last, bytes)
}

/// The corner that four bits name in a triangle with no known edge, and what follows it.
#[tactic(auto, unfolding(crate::specs::Triangles::corner_at))]
pub(crate) fn corner_at<'a>(
    may_store: bool,
    bits: u8,
    vertices: &[u32; 16],
    next: u32,
    last: u32,
    bytes: &'a [u8],
) -> Option<(Corner, &'a [u8])>
    requires { bits < 16 }
    ensures { option_map (λ x. (x.0, x.1.now)) result ≡ corner_at may_store bits vertices.now next
        last bytes.now }
{
    if bits == 0 {
        return Some((new_corner(next, last), bytes));
    }
    if may_store && bits == 15 {
        return stored_corner(next, last, bytes);
    }
    let index = vertices[bits as usize - 1];
    Some((
        Corner {
            index,
            queued: false,
            next,
            last,
        },
        bytes,
    ))
}
