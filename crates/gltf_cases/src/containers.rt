//! GLB containers.
use crate::told::{Told, tell};
use gltf::binary::Header;
use gltf::{Glb, Result};
use gltf_case::asked::Asked;
use gltf_case::bytes::{bytes_of, write_hex};
use gltf_case::shown::{Written, tell_copy};
use std::alloc::Global;
use std::borrow::CowSlice;

/// A container of the given text, and of the blob where there is one.
pub(crate) fn container(alloc: Global, asked: Asked<'_>) -> Result<Vec<u8>> {
    match asked.blob {
        Some(digits) => {
            let blob = bytes_of(alloc, digits)?;
            written(
                alloc,
                asked.given,
                Some(CowSlice::Borrowed(blob.as_slice())),
            )
        }
        None => written(alloc, asked.given, None),
    }
}

/// A container of these parts. Its header is written anew, so that it is given none that is true.
fn written(alloc: Global, text: &str, bin: Option<CowSlice<'_, u8>>) -> Result<Vec<u8>> {
    let header = Header {
        magic: [0; 4],
        version: 9,
        length: 7,
    };
    let json = CowSlice::Borrowed(text.as_bytes());
    Glb { header, json, bin }.to_vec(alloc)
}

impl Told for Glb<'_> {
    /// The header and the parts, and what is written of them.
    fn tell(&self, alloc: Global, asked: Asked<'_>, line: &mut String) -> Written {
        write!(line, "{:?}; JSON ", self.header)?;
        write_hex(self.json.as_slice(), line)?;
        if let Some(bin) = &self.bin {
            line.push_str("; BIN ")?;
            write_hex(bin.as_slice(), line)?;
        }
        line.push_str("; written ")?;
        tell(alloc, asked, self.to_vec(alloc), line)?;
        tell_copy(alloc, self.clone(alloc), self, line)
    }
}

impl Told for Vec<u8> {
    /// The bytes in hexadecimal digits.
    fn tell(&self, _alloc: Global, _asked: Asked<'_>, line: &mut String) -> Written {
        write_hex(self, line)
    }
}
