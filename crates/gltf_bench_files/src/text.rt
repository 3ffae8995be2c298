//! Files that are made of templates, and made anew by a few digits.
use crate::blob::Blob;
use crate::random::Random;
use crate::template::{Slot, Template, number_at};
use base64::engine::general_purpose::STANDARD;
use itoa::Buffer;
use std::alloc::{AllocError, Global};

/// A file, and the places of what is other in each round: decimal digits, digits of base64, and
/// bytes of a container's blob.
#[derive(Drop)]
pub struct File {
    alloc: Global,
    pub bytes: Vec<u8>,
    digits: Vec<usize>,
    letters: Vec<usize>,
    loose: Vec<usize>,
    random: Random,
    is_pretty: bool,
}

impl File {
    /// A file of nothing, whose digits come of a seed.
    pub fn new(alloc: Global, seed: u64, is_pretty: bool) -> File {
        File {
            alloc,
            bytes: Vec::new(alloc),
            digits: Vec::new(alloc),
            letters: Vec::new(alloc),
            loose: Vec::new(alloc),
            random: Random::new(seed),
            is_pretty,
        }
    }

    /// Adds a text of no records, as that of a template.
    pub fn text(&mut self, text: &str) -> Result<(), AllocError> {
        let template = Template::new(self.alloc, text, self.is_pretty)?;
        self.record(&template, 0)
    }

    /// Adds the records of these numbers, with commas between them.
    pub fn list(&mut self, text: &str, first: u32, end: u32) -> Result<(), AllocError> {
        let template = Template::new(self.alloc, text, self.is_pretty)?;
        for k in first..end {
            if k != first {
                self.bytes.push(b',')?;
            }
            self.record(&template, k)?;
        }
        Ok(())
    }

    /// Adds the record of a number.
    fn record(&mut self, template: &Template, k: u32) -> Result<(), AllocError> {
        for piece in &template.pieces {
            match piece.slot {
                Slot::Nothing => {}
                Slot::Digits => self.six_digits()?,
                Slot::Number(letter) => self.number(u64::from(number_at(letter, k)))?,
            }
            self.bytes.extend_from_slice(&piece.text)?;
        }
        Ok(())
    }

    /// Adds a number.
    pub fn number(&mut self, number: u64) -> Result<(), AllocError> {
        let mut buffer = Buffer::new();
        self.bytes
            .extend_from_slice(buffer.format(number).as_bytes())
    }

    /// Adds six digits of chance, the fourth of which is another one in each round.
    fn six_digits(&mut self) -> Result<(), AllocError> {
        let start = self.bytes.len();
        self.digits.push(start.wrapping_add(3))?;
        for _ in 0..6 {
            self.bytes.push(self.random.digit())?;
        }
        Ok(())
    }

    /// Adds these bytes in base64 (RFC 4648, section 4). A loose byte of theirs stays loose where
    /// a digit stands for bits of it alone: that of two bytes in three.
    pub fn payload(&mut self, blob: &Blob) -> Result<(), AllocError> {
        let start = self.bytes.len();
        let payload = STANDARD.encode(self.alloc, &blob.bytes)?;
        self.bytes.extend_from_slice(payload.as_str().as_bytes())?;
        for place in &blob.loose {
            let group = (place / 3).wrapping_mul(4).wrapping_add(start);
            match place % 3 {
                0 => self.letters.push(group)?,
                2 => self.letters.push(group.wrapping_add(3))?,
                _ => {}
            }
        }
        Ok(())
    }

    /// Another file of the same kind and size.
    pub fn renew(&mut self) {
        self.random.put_digits(&self.digits, &mut self.bytes);
        self.random.put_letters(&self.letters, &mut self.bytes);
        self.random.put_bytes(&self.loose, &mut self.bytes);
    }

    /// The container of this text and of these bytes (glTF 2.0, section 4.4).
    pub fn into_container(self, blob: &Blob) -> Result<File, AllocError> {
        let text = padded(self.bytes.len());
        let body = padded(blob.bytes.len());
        let mut file = File::new(self.alloc, 0, self.is_pretty);
        file.header(text, body)?;
        shift(&mut file.digits, &self.digits, file.bytes.len())?;
        shift(&mut file.letters, &self.letters, file.bytes.len())?;
        file.bytes.extend_from_slice(&self.bytes)?;
        file.pad(b' ')?;
        file.word(body)?;
        file.bytes.extend_from_slice(b"BIN\0")?;
        shift(&mut file.loose, &blob.loose, file.bytes.len())?;
        file.bytes.extend_from_slice(&blob.bytes)?;
        file.pad(0)?;
        file.random = self.random;
        Ok(file)
    }

    /// Adds the header of a container, and that of its text.
    fn header(&mut self, text: usize, body: usize) -> Result<(), AllocError> {
        self.bytes.extend_from_slice(b"glTF\x02\0\0\0")?;
        self.word(text.wrapping_add(body).wrapping_add(28))?;
        self.word(text)?;
        self.bytes.extend_from_slice(b"JSON")
    }

    /// Adds a number in four bytes, the lowest first.
    fn word(&mut self, number: usize) -> Result<(), AllocError> {
        let number = u32::try_from(number).unwrap_or(u32::MAX);
        self.bytes.extend_from_slice(&number.to_le_bytes())
    }

    /// Adds a byte until their number is a multiple of four.
    fn pad(&mut self, byte: u8) -> Result<(), AllocError> {
        for _ in self.bytes.len()..padded(self.bytes.len()) {
            self.bytes.push(byte)?;
        }
        Ok(())
    }
}

/// Adds these places, each so much further on.
fn shift(places: &mut Vec<usize>, from: &[usize], by: usize) -> Result<(), AllocError> {
    for place in from {
        places.push(place.wrapping_add(by))?;
    }
    Ok(())
}

/// The least multiple of four from this number on.
fn padded(count: usize) -> usize {
    count.wrapping_add(3) & !3
}
