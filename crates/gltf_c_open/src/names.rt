//! Names of extensions out of one block of bytes.
ghost use Rattle.std.specs.Prelude.{◌≡◌, IfOk, length, map, filter, vec_len};
ghost use Rattle.std.specs.Prelude.{if◌then◌else◌, Some, None, option_copied};
ghost use Rattle.std.specs.Str.{is_utf8};
ghost use Rattle.gltf_c_open.specs.Names.{AreNames, parts_in, parts_of};

use std::alloc::{AllocError, Global};
use std::str::from_utf8;

/// The names in a block, each of which is followed by a zero byte, in their order. One that is not
/// UTF-8 is left out, alone: it is no name of a file, whose JSON text is UTF-8. Fails only where
/// there is no memory.
pub fn names_of(alloc: Global, block: &[u8]) -> Result<Vec<&str>, AllocError>
    ensures { IfOk result (λ names. AreNames block.now (map (λ k. k.now) names.items)) }
{
    let parts = parts_in(alloc, block)?;
    texts_of(alloc, &parts)
}

/// The parts of a block that are followed by a zero byte.
fn parts_in(alloc: Global, block: &[u8]) -> Result<Vec<&[u8]>, AllocError>
    ensures { IfOk result (λ parts. map (λ k. k.now) parts.items ≡ parts_in block.now) }
{
    let mut parts = parts_of(alloc, block)?;
    // The part after the last zero byte is no name.
    let count = parts.len().saturating_sub(1);
    parts.truncate(count);
    Ok(parts)
}

/// The parts of a block between its zero bytes.
fn parts_of(alloc: Global, block: &[u8]) -> Result<Vec<&[u8]>, AllocError>
    ensures parts { IfOk result (λ parts. map (λ k. k.now) parts.items ≡ parts_of block.now) }
    ensures count { IfOk result (λ parts. vec_len parts ≡ length (parts_of block.now)) }
{
    block.split(|byte| *byte == 0).collect(alloc)
}

/// Those parts that are UTF-8, as texts.
fn texts_of<'a>(alloc: Global, parts: &[&'a [u8]]) -> Result<Vec<&'a str>, AllocError>
    ensures { IfOk result (λ texts. map (λ k. k.now) texts.items
        ≡ filter is_utf8 (map (λ k. k.now) parts.now)) }
{
    let mut texts = Vec::new(alloc);
    for part in parts {
        if let Some(text) = text_of(part) {
            texts.push(text)?;
        }
    }
    Ok(texts)
}

/// A part as a text, where it is UTF-8.
fn text_of(part: &[u8]) -> Option<&str>
    ensures { option_copied result ≡ (if is_utf8 part.now then Some part.now else None) }
{
    match from_utf8(part) {
        Ok(text) => Some(text),
        Err(_) => None,
    }
}
