//! Numbers that a seed decides.
use rand_core::{Rng, SeedableRng};
use rand_xoshiro::Xoshiro256PlusPlus;

/// A stream of numbers that a seed decides.
#[derive(Drop)]
pub struct Random(Xoshiro256PlusPlus);

/// The digits of base64 (RFC 4648, section 4).
const LETTERS: &[u8; 64] = b"ABCDEFGHIJKLMNOPQRSTUVWXYZabcdefghijklmnopqrstuvwxyz0123456789+/";

impl Random {
    /// The stream of a seed.
    pub fn new(seed: u64) -> Random {
        Random(Xoshiro256PlusPlus::seed_from_u64(seed))
    }

    /// The next number.
    pub fn number(&mut self) -> u64 {
        self.0.next_u64()
    }

    /// A decimal digit.
    pub fn digit(&mut self) -> u8 {
        match (self.number() >> 32) % 10 {
            0 => b'0',
            1 => b'1',
            2 => b'2',
            3 => b'3',
            4 => b'4',
            5 => b'5',
            6 => b'6',
            7 => b'7',
            8 => b'8',
            _ => b'9',
        }
    }

    /// A byte.
    pub fn byte(&mut self) -> u8 {
        (self.number() >> 56) as u8
    }

    /// Writes a digit at each of these places.
    pub fn put_digits(&mut self, places: &[usize], bytes: &mut [u8]) {
        for place in places {
            if let Some(byte) = bytes.get_mut(*place) {
                *byte = self.digit();
            }
        }
    }

    /// Writes a digit of base64 at each of these places.
    pub fn put_letters(&mut self, places: &[usize], bytes: &mut [u8]) {
        for place in places {
            if let Some(byte) = bytes.get_mut(*place) {
                *byte = LETTERS[usize::from(self.byte() % 64)];
            }
        }
    }

    /// Writes a byte at each of these places.
    pub fn put_bytes(&mut self, places: &[usize], bytes: &mut [u8]) {
        let (eights, rest) = places.as_chunks::<8>();
        for eight in eights {
            self.put_few_bytes(eight, bytes);
        }
        self.put_few_bytes(rest, bytes);
    }

    /// Writes the bytes of one number at up to eight places.
    fn put_few_bytes(&mut self, places: &[usize], bytes: &mut [u8]) {
        let mut number = self.number();
        for place in places {
            if let Some(byte) = bytes.get_mut(*place) {
                *byte = (number & 0xff) as u8;
            }
            number = number.rotate_right(8);
        }
    }
}
