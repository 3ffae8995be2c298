//! The points, lines and triangles of a primitive (glTF 2.0, section 3.7.2.1, "Meshes: Overview"),
//! and some of them, spread evenly over all.
ghost use Rattle.std.specs.Prelude.{◌<◌, IfSome};

use gltf::mesh::util::indices::{CastingIter, U32};
use gltf_geometry::{Lines, Points, Triangles, Vertices, lines, points, triangles};
use gltf_json_geometry::mesh::Mode;

/// The points, lines or triangles of a primitive, by the places of their vertices in its list of
/// indices. One of the three is there.
#[derive(Drop)]
pub(crate) struct Shapes {
    /// Each a vertex.
    points: Option<Points<'static>>,
    /// Each from one vertex to another.
    lines: Option<Lines<'static>>,
    /// Each by its three corners.
    triangles: Option<Triangles<'static>>,
}

impl Shapes {
    /// Those of so many vertices, of which 4,294,967,295 are looked at at most.
    pub(crate) fn of(mode: Mode, vertices: usize) -> Shapes {
        let vertices = Vertices::Count(vertices.min(u32::MAX as usize) as u32);
        Shapes {
            points: points(mode, vertices),
            lines: lines(mode, vertices),
            triangles: triangles(mode, vertices),
        }
    }

    /// How many are left.
    pub(crate) fn len(&self) -> usize {
        if let Some(points) = &self.points {
            return points.len();
        }
        if let Some(lines) = &self.lines {
            return lines.len();
        }
        match &self.triangles {
            Some(triangles) => triangles.len(),
            None => 0,
        }
    }

    /// Leaves so many out, and gives the next one.
    pub(crate) fn nth(&mut self, n: usize) -> Option<Corners> {
        if let Some(points) = &mut self.points {
            let a = points.nth(n)?;
            return Some(Corners::One(a as usize));
        }
        if let Some(lines) = &mut self.lines {
            let [a, b] = lines.nth(n)?;
            return Some(Corners::Two(a as usize, b as usize));
        }
        if let Some(triangles) = &mut self.triangles {
            let [a, b, c] = triangles.nth(n)?;
            return Some(Corners::Three(a as usize, b as usize, c as usize));
        }
        None
    }

    /// The name of the mode in which each has vertices of its own.
    pub(crate) fn name(&self) -> &'static str {
        if self.points.is_some() {
            "POINTS"
        } else if self.lines.is_some() {
            "LINES"
        } else {
            "TRIANGLES"
        }
    }
}

/// Where the corners of a point, a line or a triangle are, in the list of indices.
#[derive(Clone, Copy)]
pub(crate) enum Corners {
    /// Of a point.
    One(usize),
    /// Of a line.
    Two(usize, usize),
    /// Of a triangle.
    Three(usize, usize, usize),
}

/// How many points, lines or triangles so many vertices make.
pub(crate) fn shape_count(mode: Mode, vertices: usize) -> usize {
    Shapes::of(mode, vertices).len()
}

/// The indices of a primitive, looked at from the first on: the first one at any time, and others
/// with those between them left out.
#[derive(Drop)]
pub(crate) struct Walk<'s> {
    first: Option<u32>,
    items: CastingIter<'s, U32>,
    /// The place of the last one that was looked at, and what is there.
    place: usize,
    last: Option<u32>,
}

impl<'s> Walk<'s> {
    /// A walk over these indices.
    pub(crate) fn new(mut items: CastingIter<'s, U32>) -> Walk<'s> {
        let first = items.next();
        Walk {
            first,
            items,
            place: 0,
            last: first,
        }
    }

    /// The index at a place; `None` where there is none, or where the walk is past it.
    pub(crate) fn at(&mut self, place: usize) -> Option<u32> {
        if place == 0 {
            return self.first;
        }
        if place > self.place {
            self.last = self.items.nth(place - self.place - 1);
            self.place = place;
        }
        if place == self.place { self.last } else { None }
    }
}

/// The indices of a primitive, looked at three times: for the first, the second and the third corner
/// of each shape.
#[derive(Drop)]
pub(crate) struct Walks<'s> {
    /// How many there are.
    pub(crate) count: usize,
    pub(crate) first: Walk<'s>,
    pub(crate) second: Walk<'s>,
    pub(crate) third: Walk<'s>,
}

/// Picks so many of a list, spread evenly over it.
#[derive(Clone, Copy)]
pub(crate) struct Picks {
    all: usize,
    kept: usize,
    /// How many are left out before the next one.
    wait: usize,
    /// By how much of `kept` those that were picked so far stand too far in front.
    over: usize,
}

impl Picks {
    /// So many of a list of `all`.
    pub(crate) fn new(all: usize, kept: usize) -> Picks {
        Picks {
            all,
            kept,
            wait: 0,
            over: 0,
        }
    }

    /// How many of the next `left` elements are left out before one is picked; `None` where none
    /// of them is.
    pub(crate) fn next(&mut self, left: usize) -> Option<usize>
        ensures { IfSome result (λ passed. passed < left) }
    {
        if self.wait >= left {
            self.wait -= left;
            return None;
        }
        let passed = self.wait;
        self.wait = self.gap();
        Some(passed)
    }

    /// How many are left out between the one that is picked and the next.
    fn gap(&mut self) -> usize {
        if self.kept == 0 {
            return usize::MAX;
        }
        let step = self.all / self.kept;
        let over = self.over.saturating_add(self.all % self.kept);
        if over < self.kept {
            self.over = over;
            step.saturating_sub(1)
        } else {
            self.over = over - self.kept;
            step
        }
    }
}
