//! The primitives of a picture, as JSON: all of them where they are few, else some of their
//! triangles, lines and points, or their positions alone.
use crate::picture::{add, add_comma, add_number};
use crate::shapes::{Corners, Picks, Shapes, Walk, Walks, shape_count};
use crate::shown::Shown;
use gltf::mesh::util::{ReadIndices, ReadPositions};
use gltf::{Buffer, Document, typed};
use gltf_items::F32;
use gltf_json_geometry::mesh::{Mode, Primitive};
use gltf_json_record::validation::Checked;
use std::alloc::AllocError;

/// How many positions and indices a page has at most, so that a large file makes no page that a
/// browser cannot show.
const MOST: usize = 400_000;

/// How many positions it has at most where these are drawn as points alone.
const POINTS: usize = 20_000;

/// A document and the bytes of its buffers.
#[derive(Clone, Copy)]
pub(crate) struct Source<'a, 's> {
    pub(crate) document: &'a Document,
    pub(crate) buffers: &'a [&'s [u8]],
}

impl<'a, 's> Source<'a, 's> {
    /// The positions of a primitive of a mesh, by their indices; `None` where it has none that can
    /// be read.
    fn positions(&self, mesh: usize, primitive: usize) -> Option<ReadPositions<'s>> {
        let buffers = self.buffers;
        let bytes = |buffer: Buffer| bytes_of(buffers, buffer);
        let primitive = self
            .document
            .meshes()
            .nth(mesh)?
            .primitives()
            .nth(primitive)?;
        typed::read_positions(&primitive, &bytes)
    }

    /// The indices of its vertices, as [`Source::positions`].
    fn indices(&self, mesh: usize, primitive: usize) -> Option<ReadIndices<'s>> {
        let buffers = self.buffers;
        let bytes = |buffer: Buffer| bytes_of(buffers, buffer);
        let primitive = self
            .document
            .meshes()
            .nth(mesh)?
            .primitives()
            .nth(primitive)?;
        typed::read_indices(&primitive, &bytes)
    }

    /// The same, looked at three times.
    fn walks(&self, mesh: usize, primitive: usize) -> Option<Walks<'s>> {
        let indices = self.indices(mesh, primitive)?.into_u32();
        Some(Walks {
            count: indices.len(),
            first: Walk::new(indices),
            second: Walk::new(self.indices(mesh, primitive)?.into_u32()),
            third: Walk::new(self.indices(mesh, primitive)?.into_u32()),
        })
    }
}

/// The bytes of a buffer, among those of all.
fn bytes_of<'s>(buffers: &[&'s [u8]], buffer: Buffer) -> Option<&'s [u8]> {
    let bytes = buffers.get(buffer.index())?;
    Some(*bytes)
}

/// How much the primitives that are shown have.
#[derive(Clone, Copy)]
struct Totals {
    positions: usize,
    indices: usize,
    /// The triangles, lines and points that indices make.
    shapes: usize,
}

impl Totals {
    fn of(source: &Source<'_, '_>, shown: &Shown) -> Totals {
        let mut totals = Totals {
            positions: 0,
            indices: 0,
            shapes: 0,
        };
        for (i, mesh) in source.document.as_json().meshes.iter().enumerate() {
            if shown.has_mesh(i) {
                for (j, primitive) in mesh.primitives.iter().enumerate() {
                    totals.add(source, i, j, primitive);
                }
            }
        }
        totals
    }

    fn add(&mut self, source: &Source<'_, '_>, mesh: usize, j: usize, primitive: &Primitive) {
        let Checked::Valid(mode) = primitive.mode else {
            return;
        };
        let Some(positions) = source.positions(mesh, j) else {
            return;
        };
        self.positions = self.positions.saturating_add(positions.len());
        if let Some(indices) = source.indices(mesh, j) {
            let count = indices.into_u32().len();
            self.indices = self.indices.saturating_add(count);
            self.shapes = self.shapes.saturating_add(shape_count(mode, count));
        }
    }
}

/// How much of the primitives is in a page.
#[derive(Clone, Copy)]
enum Share {
    /// All positions and indices.
    All,
    /// All positions, and some of the triangles, lines and points that indices make.
    Shapes,
    /// Positions alone.
    Points,
}

impl Share {
    fn of(totals: Totals) -> Share {
        if totals.positions.saturating_add(totals.indices) <= MOST {
            Share::All
        } else if totals.positions <= MOST / 2 {
            Share::Shapes
        } else {
            Share::Points
        }
    }

    /// Those of the shapes, or of the positions, that are in a page.
    fn picks(self, totals: Totals) -> Picks {
        let Totals {
            positions,
            shapes,
            ..
        } = totals;
        match self {
            Share::All => Picks::new(0, 0),
            Share::Shapes => {
                let room = MOST.saturating_sub(positions) / 3;
                Picks::new(shapes, room.min(shapes))
            }
            Share::Points => Picks::new(positions, POINTS.min(positions)),
        }
    }
}

/// Primitives as JSON, one after the other: of each its mode, its positions (the four bytes of each
/// number as an unsigned number), and its indices, where it has some. At most 400,000 positions and
/// indices are written in all.
///
/// Where they have more, and not more than half as many positions, all positions are written, and
/// of primitives with indices some of their triangles, lines and points, in a mode in which each
/// has indices of its own. Else positions alone are written, as points, at most 20,000 of them.
/// Those that are written are spread evenly over all, and `of` says how many there are.
///
/// A 0 stands for a primitive that cannot be read.
#[derive(Clone, Copy)]
pub(crate) struct Thinned {
    share: Share,
    picks: Picks,
}

impl Thinned {
    /// None of the primitives that are shown is written yet.
    pub(crate) fn of(source: &Source<'_, '_>, shown: &Shown) -> Thinned {
        let totals = Totals::of(source, shown);
        let share = Share::of(totals);
        Thinned {
            share,
            picks: share.picks(totals),
        }
    }

    /// Whether positions alone are written.
    pub(crate) fn is_points(&self) -> bool {
        matches!(self.share, Share::Points)
    }

    /// Writes the next primitive, which is that of a mesh at `j`.
    pub(crate) fn add_primitive(
        &mut self,
        source: &Source<'_, '_>,
        mesh: usize,
        j: usize,
        primitive: &Primitive,
        data: &mut Vec<u8>,
    ) -> Result<(), AllocError> {
        let Checked::Valid(mode) = primitive.mode else {
            return add(data, "0");
        };
        let Some(positions) = source.positions(mesh, j) else {
            return add(data, "0");
        };
        if self.is_points() {
            return add_points(positions, &mut self.picks, data);
        }
        if primitive.indices.is_none() {
            return add_plain(mode, positions, data);
        }
        match source.walks(mesh, j) {
            Some(mut walks) => self.add_joined(mode, positions, &mut walks, data),
            None => add(data, "0"),
        }
    }

    /// Writes a primitive with indices: all of them, or those of the shapes that are picked.
    fn add_joined(
        &mut self,
        mode: Mode,
        positions: ReadPositions<'_>,
        walks: &mut Walks<'_>,
        data: &mut Vec<u8>,
    ) -> Result<(), AllocError> {
        if matches!(self.share, Share::All) {
            return add_all(mode, positions, walks, data);
        }
        let mut shapes = Shapes::of(mode, walks.count);
        self.add_some(positions, &mut shapes, walks, data)
    }

    /// Writes a primitive with those of its shapes that are picked.
    fn add_some(
        &mut self,
        positions: ReadPositions<'_>,
        shapes: &mut Shapes,
        walks: &mut Walks<'_>,
        data: &mut Vec<u8>,
    ) -> Result<(), AllocError> {
        add_mode(shapes.name(), data)?;
        add_positions(positions, data)?;
        add_of(shapes.len(), data)?;
        add(data, ",\"indices\":[")?;
        self.add_shapes(shapes, walks, data)?;
        add(data, "]}")
    }

    /// Writes the indices of those of the next shapes that are picked.
    fn add_shapes(
        &mut self,
        shapes: &mut Shapes,
        walks: &mut Walks<'_>,
        data: &mut Vec<u8>,
    ) -> Result<(), AllocError> {
        for i in 0..MOST {
            let Some(passed) = self.picks.next(shapes.len()) else {
                break;
            };
            let Some(corners) = shapes.nth(passed) else {
                break;
            };
            add_comma(i, data)?;
            add_corners(corners, walks, data)?;
        }
        Ok(())
    }
}

/// Writes the indices of the corners of a shape.
fn add_corners(
    corners: Corners,
    walks: &mut Walks<'_>,
    data: &mut Vec<u8>,
) -> Result<(), AllocError> {
    match corners {
        Corners::One(a) => add_index(walks.first.at(a), data),
        Corners::Two(a, b) => {
            add_index(walks.first.at(a), data)?;
            add(data, ",")?;
            add_index(walks.second.at(b), data)
        }
        Corners::Three(a, b, c) => {
            add_index(walks.first.at(a), data)?;
            add(data, ",")?;
            add_index(walks.second.at(b), data)?;
            add(data, ",")?;
            add_index(walks.third.at(c), data)
        }
    }
}

/// Writes a primitive without indices.
fn add_plain(
    mode: Mode,
    positions: ReadPositions<'_>,
    data: &mut Vec<u8>,
) -> Result<(), AllocError> {
    add_mode(mode.as_str(), data)?;
    add_positions(positions, data)?;
    add(data, "]}")
}

/// Writes a primitive with all its indices.
fn add_all(
    mode: Mode,
    positions: ReadPositions<'_>,
    walks: &mut Walks<'_>,
    data: &mut Vec<u8>,
) -> Result<(), AllocError> {
    add_mode(mode.as_str(), data)?;
    add_positions(positions, data)?;
    add(data, "],\"indices\":[")?;
    for i in 0..walks.count {
        add_comma(i, data)?;
        add_index(walks.first.at(i), data)?;
    }
    add(data, "]}")
}

/// Begins a primitive: its mode, and what is in front of its positions.
fn add_mode(mode: &str, data: &mut Vec<u8>) -> Result<(), AllocError> {
    add(data, "{\"mode\":\"")?;
    add(data, mode)?;
    add(data, "\",\"positions\":[")
}

/// Ends its positions, and adds how many shapes or positions it has in all.
fn add_of(all: usize, data: &mut Vec<u8>) -> Result<(), AllocError> {
    add(data, "],\"of\":")?;
    add_number(all as u64, data)
}

/// Adds the positions that are picked, as points.
fn add_points(
    mut positions: ReadPositions<'_>,
    picks: &mut Picks,
    data: &mut Vec<u8>,
) -> Result<(), AllocError> {
    let all = positions.len();
    add_mode("POINTS", data)?;
    for i in 0..POINTS {
        let Some(passed) = picks.next(positions.len()) else {
            break;
        };
        add_position(i, positions.nth(passed), data)?;
    }
    add_of(all, data)?;
    add(data, "}")
}

fn add_positions(mut positions: ReadPositions<'_>, data: &mut Vec<u8>) -> Result<(), AllocError> {
    for i in 0..positions.len() {
        add_position(i, positions.next(), data)?;
    }
    Ok(())
}

fn add_position(
    i: usize,
    position: Option<[F32; 3]>,
    data: &mut Vec<u8>,
) -> Result<(), AllocError> {
    let Some(position) = position else {
        return Ok(());
    };
    add_comma(i, data)?;
    add_bits(position[0], data)?;
    add(data, ",")?;
    add_bits(position[1], data)?;
    add(data, ",")?;
    add_bits(position[2], data)
}

fn add_bits(number: F32, data: &mut Vec<u8>) -> Result<(), AllocError> {
    add_number(u64::from(u32::from_le_bytes(number.to_bytes())), data)
}

/// Adds an index; where there is none, a number that is no index (glTF 2.0, section 3.7.2.1: the
/// greatest one names no vertex).
fn add_index(index: Option<u32>, data: &mut Vec<u8>) -> Result<(), AllocError> {
    add_number(u64::from(index.unwrap_or(u32::MAX)), data)
}
