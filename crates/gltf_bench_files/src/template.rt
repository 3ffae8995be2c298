//! Records of JSON with numbers that differ from one to the next.
use std::alloc::{AllocError, Global};

/// What stands before a text of a template.
#[derive(Clone, Copy)]
pub enum Slot {
    /// Nothing.
    Nothing,
    /// Six digits of chance: `@d`.
    Digits,
    /// The number that a letter stands for in the record.
    Number(u8),
}

/// A text of a template, and what stands before it.
#[derive(Drop)]
pub struct Piece {
    pub slot: Slot,
    pub text: Vec<u8>,
}

/// A record of JSON in which `@` and a letter stand for a number: `@d` for six digits of chance,
/// each other letter for what [`number_at`] says.
#[derive(Drop)]
pub struct Template {
    pub pieces: Vec<Piece>,
}

impl Template {
    /// The template of a text that is indented. It keeps its spaces and the ends of its lines only
    /// where it is to be pretty.
    pub fn new(alloc: Global, text: &str, is_pretty: bool) -> Result<Template, AllocError> {
        let mut pieces = Vec::new(alloc);
        for (k, part) in text.split('@').enumerate() {
            let (slot, text) = parted(part.as_bytes(), k == 0);
            let text = if is_pretty {
                Vec::from_slice(alloc, text)?
            } else {
                compact(alloc, text)?
            };
            pieces.push(Piece { slot, text })?;
        }
        Ok(Template { pieces })
    }
}

/// The slot and the text of a part of a template.
fn parted(part: &[u8], is_first: bool) -> (Slot, &[u8]) {
    match part {
        [b'd', text @ ..] if !is_first => (Slot::Digits, text),
        [letter, text @ ..] if !is_first => (Slot::Number(*letter), text),
        text => (Slot::Nothing, text),
    }
}

/// A text without the ends of its lines, the spaces behind these, and those behind colons.
fn compact(alloc: Global, text: &[u8]) -> Result<Vec<u8>, AllocError> {
    let mut left = Vec::new(alloc);
    let mut is_indent = false;
    for byte in text {
        match *byte {
            b'\n' | b':' => is_indent = true,
            b' ' => {}
            _ => is_indent = false,
        }
        if *byte != b'\n' && !(*byte == b' ' && is_indent) {
            left.push(*byte)?;
        }
    }
    Ok(left)
}

/// The number that a letter stands for in the record of a number k.
pub fn number_at(letter: u8, k: u32) -> u32 {
    match letter {
        // One of ten in a row.
        b'0'..=b'9' => k.wrapping_mul(10).wrapping_add(u32::from(letter - b'0')),
        b'k' => k,
        // The one after it, and the one before it.
        b'n' => k.wrapping_add(1),
        b'l' => k.wrapping_sub(1),
        // A tenth of it.
        b't' => k / 10,
        // One of four in a row.
        b'p'..=b's' => k.wrapping_mul(4).wrapping_add(u32::from(letter - b'p')),
        // One of two in a row.
        b'v' | b'w' => k.wrapping_mul(2).wrapping_add(u32::from(letter - b'v')),
        // The bytes of a cube, and of its indices.
        b'o' => k.wrapping_mul(840),
        b'x' => k.wrapping_mul(840).wrapping_add(768),
        // One of 64 materials.
        b'm' => k % 64,
        // A joint, its three samplers in an animation, and their outputs behind forty accessors.
        b'j' => k % 200,
        b'a'..=b'c' => (k % 200)
            .wrapping_mul(3)
            .wrapping_add(u32::from(letter - b'a')),
        b'e'..=b'g' => k
            .wrapping_mul(3)
            .wrapping_add(u32::from(letter - b'e') + 40),
        _ => 0,
    }
}
