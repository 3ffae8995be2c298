//! How much a document has.
use gltf::Document;
use std::fmt;

/// A line with the number of buffers, accessors, meshes and nodes of an accepted document.
#[derive(Drop)]
pub(crate) struct Summary<'d>(pub(crate) &'d Document);

impl fmt::Display for Summary<'_> {
    fn fmt<W: fmt::Write>(&self, f: &mut fmt::Formatter<W>) -> fmt::Result {
        let json = self.0.as_json();
        let buffers = json.buffers.len();
        let accessors = json.accessors.len();
        let meshes = json.meshes.len();
        let nodes = json.nodes.len();
        writeln!(
            f,
            "ok buffers={buffers} accessors={accessors} meshes={meshes} nodes={nodes}"
        )
    }
}
