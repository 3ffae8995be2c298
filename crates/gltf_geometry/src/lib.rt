//! Triangles, lines and points out of the vertices of a primitive, whether its indices are in
//! range, and the keyframes of cubic splines. Nothing is computed or allocated: vertices and
//! values are given in the order that the standard states.
#![tactic(auto)]

mod cubic_spline;
mod items;
mod line;
mod point;
mod triangle;
mod vertices;

pub use cubic_spline::{Keyframe, KeyframeSequence, Spline, spline};
pub use items::{Items, Sequence};
pub use line::{LineSequence, Lines, lines};
pub use point::{PointSequence, Points, points};
pub use triangle::{TriangleSequence, Triangles, triangles};
pub use vertices::{Vertices, indices_in_range, none_restarts, restart_index};
