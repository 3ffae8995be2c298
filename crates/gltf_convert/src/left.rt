//! What a conversion leaves out of the file that it reads.
use crate::instead::{Instead, buffers_of, has, instead_of};
use crate::shared::owners_of;
use crate::words::{Conversion, Form};
use gltf::{Glb, text_and_blob};
use gltf_fallback::is_bare;
use serde_json::Value;
use std::alloc::{AllocError, Global};
use std::borrow::CowSlice;
use std::io::{self, Write};

/// What is left out of a file.
#[derive(Clone, Copy, Debug, Default)]
pub struct LeftOut {
    /// How many buffers that have bytes have a name, extras or extensions.
    buffers: usize,
    /// How many bytes of a container are neither its header nor the chunks of its text and its
    /// blob.
    chunks: usize,
    /// How many bytes stand behind the end that a container declares.
    behind: usize,
    /// How many bytes a blob has that no buffer takes.
    blob: usize,
}

/// What is left out of a file, which image owns the file of each one, and what is read in its
/// place.
#[derive(Drop)]
pub(crate) struct Looked {
    pub(crate) left: LeftOut,
    pub(crate) owners: Vec<usize>,
    pub(crate) instead: Option<Instead>,
}

impl Looked {
    fn nothing(alloc: Global) -> Looked {
        Looked {
            left: LeftOut::default(),
            owners: Vec::new(alloc),
            instead: None,
        }
    }
}

/// What is to be known of a file of these bytes, where `behind` says that its buffers become one.
/// Of one that is no glTF file nothing is told, since it is refused.
pub(crate) fn look_at(alloc: Global, bytes: &[u8], behind: bool) -> Result<Looked, AllocError> {
    let Ok((text, blob)) = text_and_blob(bytes) else {
        return Ok(Looked::nothing(alloc));
    };
    let Ok(document) = Value::from_slice(alloc, text.as_slice()) else {
        return Ok(Looked::nothing(alloc));
    };
    let left = left_beside(&document, bytes, length_of(&blob));
    let owners = owners_of(alloc, &document)?;
    let instead = instead_of(alloc, document, blob, behind)?;
    Ok(Looked {
        left,
        owners,
        instead,
    })
}

fn length_of(blob: &Option<CowSlice<'_, u8>>) -> usize {
    match blob {
        Some(blob) => blob.as_slice().len(),
        None => 0,
    }
}

/// What is left out of a file of this document and these bytes, with a blob of so many.
fn left_beside(document: &Value, bytes: &[u8], blob: usize) -> LeftOut {
    let (chunks, behind) = rest_of(bytes);
    LeftOut {
        buffers: named(document),
        chunks,
        behind,
        blob: if takes_blob(document) { 0 } else { blob },
    }
}

/// Whether a buffer has no URI, so that it takes the blob.
fn takes_blob(document: &Value) -> bool {
    for buffer in buffers_of(document) {
        if !has(buffer, "uri") {
            return true;
        }
    }
    false
}

/// How many buffers that have bytes have a name, extras or extensions.
fn named(document: &Value) -> usize {
    let mut count: usize = 0;
    for buffer in buffers_of(document) {
        if is_named(buffer) {
            count = count.saturating_add(1);
        }
    }
    count
}

fn is_named(buffer: &Value) -> bool {
    !is_bare(buffer) && (has(buffer, "name") || has(buffer, "extras") || has(buffer, "extensions"))
}

/// How many bytes of a container are neither its header nor the chunks of its text and its blob,
/// and how many stand behind the end that it declares.
fn rest_of(bytes: &[u8]) -> (usize, usize) {
    if !bytes.starts_with(b"glTF") {
        return (0, 0);
    }
    match Glb::from_slice(bytes) {
        Ok(glb) => {
            let end = glb.header.length as usize;
            (
                end.saturating_sub(known(&glb)),
                bytes.len().saturating_sub(end),
            )
        }
        Err(_) => (0, 0),
    }
}

/// How many bytes of a container its header and the chunks of its text and its blob are.
fn known(glb: &Glb<'_>) -> usize {
    let text = glb.json.len().saturating_add(20);
    match &glb.bin {
        Some(bin) => text.saturating_add(8).saturating_add(bin.len()),
        None => text,
    }
}

impl LeftOut {
    /// Writes a line for each kind of what is left out: the names, extras and extensions of buffers
    /// only where they become one.
    pub(crate) fn tell<E: Write>(&self, asked: &Conversion<'_>, err: &mut E) -> io::Result<()> {
        let from = asked.from;
        if self.buffers > 0 && matches!(asked.form, Form::Container) {
            let buffers = self.buffers;
            writeln!(
                err,
                "{from}: left out: names, extras and extensions of {buffers} of the buffers"
            )?;
        }
        if self.chunks > 0 {
            let chunks = self.chunks;
            writeln!(err, "{from}: left out: {chunks} bytes of other chunks")?;
        }
        if self.behind > 0 {
            let behind = self.behind;
            writeln!(
                err,
                "{from}: left out: {behind} bytes behind the end of the container"
            )?;
        }
        if self.blob > 0 {
            let blob = self.blob;
            writeln!(
                err,
                "{from}: left out: a BIN chunk of {blob} bytes, which no buffer takes"
            )?;
        }
        Ok(())
    }
}
