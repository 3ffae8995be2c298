//! The header and the chunks of a GLB file.
use gltf::Glb;
use std::fmt;

/// A line for the header and for each chunk: the declared length, and the lengths of the chunks as
/// they stand in the file, in bytes.
#[derive(Drop)]
pub(crate) struct Chunks<'g, 'b>(pub(crate) &'g Glb<'b>);

impl fmt::Display for Chunks<'_, '_> {
    fn fmt<W: fmt::Write>(&self, f: &mut fmt::Formatter<W>) -> fmt::Result {
        let glb = self.0;
        let version = glb.header.version;
        let length = glb.header.length;
        let json = glb.json.len();
        writeln!(f, "glTF {version} {length}")?;
        writeln!(f, "JSON {json}")?;
        if let Some(bin) = &glb.bin {
            let bin = bin.len();
            writeln!(f, "BIN {bin}")?;
        }
        Ok(())
    }
}
