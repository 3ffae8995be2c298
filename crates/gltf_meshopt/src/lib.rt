//! What views store by `EXT_meshopt_compression`: the bytes of attributes, of triangles and of
//! indices, from a stream of each of its three modes. Filters are not applied.
#![tactic(auto)]

mod attributes;
mod columns;
mod corners;
mod elements;
mod fault;
mod groups;
mod indices;
mod numbers;
mod streams;
mod triangles;

pub use attributes::decode_attributes;
pub use fault::Fault;
pub use indices::decode_indices;
pub use triangles::decode_triangles;
