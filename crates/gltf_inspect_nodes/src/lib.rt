//! What the standard says of the nodes of a document as a graph: roots of scenes, empty nodes,
//! lists that name a node twice, targets that are animated twice, loops, and joints without a
//! common root; and of the views of vertices.
#![tactic(auto)]

mod entry;
pub mod graph;
pub mod hierarchy;
mod marks;
mod named;
pub mod order;
mod repeats;
pub mod roots;
pub mod view;
