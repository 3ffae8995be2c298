//! The bytes of buffers, some of which are others in each round.
use crate::random::Random;
use std::alloc::{AllocError, Global};

/// The bits of 1, the least float of a [`floats`].
pub const LEAST: u32 = 0x3f80_0000;

/// The bits of 1.9990234375, the greatest float of a [`floats`].
pub const MOST: u32 = 0x3fff_e000;

/// Bytes of buffers, and the places of those that are others in each round. Such a byte is the
/// lowest one of a number, and that number is no stated minimum or maximum of its accessor.
#[derive(Drop)]
pub struct Blob {
    pub bytes: Vec<u8>,
    pub loose: Vec<usize>,
}

impl Blob {
    /// No bytes.
    pub fn new(alloc: Global) -> Blob {
        Blob {
            bytes: Vec::new(alloc),
            loose: Vec::new(alloc),
        }
    }

    /// Adds the bits of a float, or a number of four bytes.
    pub fn word(&mut self, bits: u32) -> Result<(), AllocError> {
        self.bytes.extend_from_slice(&bits.to_le_bytes())
    }

    /// Adds the bits of a float whose lowest byte is another one in each round.
    pub fn loose_word(&mut self, bits: u32) -> Result<(), AllocError> {
        self.loose.push(self.bytes.len())?;
        self.word(bits)
    }

    /// Adds a number of two bytes.
    pub fn short(&mut self, number: u16) -> Result<(), AllocError> {
        self.bytes.extend_from_slice(&number.to_le_bytes())
    }

    /// Adds so many bytes of floats, these again and again. Of some of them, but of none that is
    /// the least or the greatest, the lowest byte is another one in each round.
    pub fn floats(&mut self, floats: &[u8], length: u32) -> Result<(), AllocError> {
        let start = self.bytes.len();
        copies(&mut self.bytes, floats, length)?;
        let (_before, added) = self.bytes.split_at(start.min(self.bytes.len()));
        let (words, _rest) = added.as_chunks::<4>();
        // Each 64th of many floats, each fifth of those of a few keyframes.
        let step = if length < 4096 { 5 } else { 64 };
        for k in 0..words.len() / step {
            let place = k.wrapping_mul(step);
            if let Some(word) = words.get(place)
                && *word != LEAST.to_le_bytes()
                && *word != MOST.to_le_bytes()
            {
                self.loose.push(place.wrapping_mul(4).wrapping_add(start))?;
            }
        }
        Ok(())
    }

    /// Writes numbers into a column of the items behind a place, each of `width` words: the first
    /// one, and then each so much greater than the one before it.
    pub fn rise(&mut self, start: usize, width: usize, column: usize, first: u32, step: u32) {
        let start = start.min(self.bytes.len());
        let (_before, items) = self.bytes.split_at_mut(start);
        let (words, _rest) = items.as_chunks_mut::<4>();
        let mut place = column;
        let mut number = first;
        for _ in 0..words.len() / width.max(1) {
            if let Some(word) = words.get_mut(place) {
                *word = number.to_le_bytes();
            }
            place = place.wrapping_add(width);
            number = number.wrapping_add(step);
        }
    }

    /// Lets the lowest byte of each 64th float of a column, but the first, be another one in each
    /// round.
    pub fn loosen(&mut self, start: usize, width: usize, column: usize) -> Result<(), AllocError> {
        let size = width.max(1).wrapping_mul(256);
        let count = self.bytes.len().saturating_sub(start) / size.max(1);
        for k in 1..count {
            let item = k.wrapping_mul(size).wrapping_add(start);
            self.loose.push(column.wrapping_mul(4).wrapping_add(item))?;
        }
        Ok(())
    }

    /// Other bytes of the same kind and number.
    pub fn renew(&mut self, random: &mut Random) {
        random.put_bytes(&self.loose, &mut self.bytes);
    }
}

/// A thousand floats from 1 to 1.9990234375, in four bytes each. The first three are the least, and
/// the next three the greatest.
pub fn floats(alloc: Global, random: &mut Random) -> Result<Vec<u8>, AllocError> {
    let mut floats = Blob::new(alloc);
    for bits in [LEAST, LEAST, LEAST, MOST, MOST, MOST] {
        floats.word(bits)?;
    }
    for _ in 6..1000 {
        let fraction = (random.number() & 0x007f_e000) as u32;
        floats.word(LEAST | fraction)?;
    }
    Ok(floats.bytes)
}

/// Adds so many bytes, of these again and again.
pub fn copies(bytes: &mut Vec<u8>, piece: &[u8], length: u32) -> Result<(), AllocError> {
    let mut left = length as usize;
    for _ in 0..length {
        if left <= piece.len() {
            break;
        }
        bytes.extend_from_slice(piece)?;
        left = left.wrapping_sub(piece.len());
    }
    let (front, _rest) = piece.split_at(left.min(piece.len()));
    bytes.extend_from_slice(front)
}
