//! Readers that end early or fail, and containers.
use gltf::binary::Header;
use gltf::{Glb, Result};
use gltf_case::asked::Asked;
use gltf_case::bytes::bytes_of;
use std::alloc::Global;
use std::borrow::CowSlice;
use std::io;
use std::io::Read;

/// A reader of bytes, one a call.
#[derive(Drop)]
pub(crate) struct Source<'b> {
    left: &'b [u8],
    fails_at: Option<usize>,
    /// How many bytes were given.
    pub(crate) given: usize,
}

impl<'b> Source<'b> {
    /// A reader of these bytes, as a word says: `end:AT` ends after so many of them, and `fail:AT`
    /// fails there.
    pub(crate) fn of(bytes: &'b [u8], word: &str) -> Source<'b> {
        let (how, number) = word.split_once(":").unwrap_or((word, ""));
        let number = number.parse::<usize>().unwrap_or(0);
        let count = if how == "end" { number } else { usize::MAX };
        Source {
            left: bytes.split_at(count.min(bytes.len())).0,
            fails_at: (how == "fail").then_some(number),
            given: 0,
        }
    }
}

impl<'b> Read for Source<'b> {
    fn read(&mut self, buf: &mut [u8]) -> io::Result<usize> {
        if self.fails_at == Some(self.given) {
            return Err(io::Error::from(io::ErrorKind::Other));
        }
        let most: usize = 1;
        let count = most.min(buf.len()).min(self.left.len());
        let (now, later) = self.left.split_at(count);
        buf[..count].copy_from_slice(now);
        self.left = later;
        self.given = self.given.saturating_add(count);
        Ok(count)
    }
}

/// A container of the given text and of a blob in hexadecimal digits.
pub(crate) fn container(alloc: Global, asked: Asked<'_>, digits: &str) -> Result<Vec<u8>> {
    let blob = bytes_of(alloc, digits)?;
    written(alloc, asked.given, &blob)
}

/// A container of these parts. Its header is written anew.
fn written(alloc: Global, text: &str, blob: &[u8]) -> Result<Vec<u8>> {
    let header = Header {
        magic: [0; 4],
        version: 2,
        length: 0,
    };
    let json = CowSlice::Borrowed(text.as_bytes());
    let bin = Some(CowSlice::Borrowed(blob));
    Glb { header, json, bin }.to_vec(alloc)
}
