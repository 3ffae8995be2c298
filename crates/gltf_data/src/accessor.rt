//! Accessors and their items (glTF 2.0, section 3.6.2, "Accessors").

pub use crate::accessor_iter::Iter;
pub use crate::unreadable::{Part, Unreadable};
pub use crate::walk::{Answer, End, Ended, Step, Walked, walk, walk_on};
pub use gltf_handles::accessor::{Accessor, DataType, Dimensions, sparse};
pub use gltf_items::{Count, F32, Item, ItemIter, SparseIndicesIter, SparseIter};

/// The iterators that read items, under the names of the Rust crate.
pub mod util {
    pub use crate::accessor_iter::Iter;
    pub use gltf_items::{Item, ItemIter, SparseIndicesIter, SparseIter};
}
