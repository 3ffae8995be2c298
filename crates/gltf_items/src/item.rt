//! What an item is, and the items that accessors hold (glTF 2.0, 3.6.2.2 "Accessor Data Types").

ghost use Rattle.std.specs.Prelude.{◌≡◌, ℕ, ◌+◌, ◌-◌, ◌*◌, ◌<◌, ◌≤◌, ◌^◌, pos, List, [], ◌∷◌, min};
ghost use Rattle.std.specs.Prelude.{length, map, take, drop, slice_index, replicate};
ghost use Rattle.std.specs.Int.{w8, w16, cast_signed};
ghost use Rattle.std.proofs.Common.{arith};
ghost use Rattle.byteorder.specs.Endian.{little_number};
ghost use Rattle.gltf_items.specs.Floats.{float_of, float_bytes};
ghost use Rattle.gltf_items.specs.Reading.{ReadsFront, in_row, row_size};
ghost use Rattle.gltf_items.specs.ReadingLemmas.{number-reads_front, of-reads_front};
ghost use Rattle.gltf_items.specs.ReadingLemmas.{take-reads_front, row-positive, row-reads_front};

use byteorder::{ByteOrder, LE};
use std::marker::Model;

/// What can be read from the bytes of an accessor. A type of a caller's own may be one: it says how
/// many bytes an item takes and what these spell, and shows that its own bytes alone decide it.
pub trait Item: Drop {
    /// The number of bytes of an item, or the greatest `usize` where that is too small.
    ghost size: { ℕ };

    /// What the first bytes of a list spell.
    ghost value: { List ℕ → Self };

    /// The item whose numbers are zero.
    ghost zero_item: { Self };

    /// How many bytes an item takes, at least one, or the greatest `usize` where that many do not
    /// fit.
    fn size() -> usize
        ensures { result ≡ size };

    /// The item that the first `size` bytes of the slice spell, the lowest byte of a number first.
    /// The slice has at least that many; bytes after them are not looked at.
    fn from_slice(slice: &[u8]) -> Self
        requires fits { size < usize.MAX }
        requires room { size ≤ length slice.now }
        ensures { result ≡ value slice.now };

    /// The item whose numbers are zero, which a sparse accessor without a view holds (glTF 2.0,
    /// 3.6.2.3 "Sparse Accessors").
    fn zero() -> Self
        ensures { result ≡ zero_item };

    /// An item has bytes.
    ghost positive: { 0 < size };

    /// An item's own bytes decide it.
    ghost reads_front: { size < 2 ^ 64 - 1 → ReadsFront size value };
}

impl Item for u8 {
    ghost size = { 1 };

    ghost value = { little_number 1 };

    ghost zero_item = { 0 };

    ghost positive = { Prim.omega arith };

    ghost reads_front = { λ _. number-reads_front 1 };

    fn size() -> usize {
        1
    }

    fn from_slice(slice: &[u8]) -> u8 {
        slice[0]
    }

    fn zero() -> u8 {
        0
    }
}

impl Item for i8 {
    ghost size = { 1 };

    ghost value = { λ bytes. cast_signed w8 (little_number 1 bytes) };

    ghost zero_item = { pos 0 };

    ghost positive = { Prim.omega arith };

    ghost reads_front = { λ _. of-reads_front (cast_signed w8) 1 (little_number 1)
        (number-reads_front 1) };

    fn size() -> usize {
        1
    }

    fn from_slice(slice: &[u8]) -> i8 {
        slice[0].cast_signed()
    }

    fn zero() -> i8 {
        0
    }
}

impl Item for u16 {
    ghost size = { 2 };

    ghost value = { little_number 2 };

    ghost zero_item = { 0 };

    ghost positive = { Prim.omega arith };

    ghost reads_front = { λ _. number-reads_front 2 };

    fn size() -> usize {
        2
    }

    fn from_slice(slice: &[u8]) -> u16 {
        LE::read_u16(slice)
    }

    fn zero() -> u16 {
        0
    }
}

impl Item for i16 {
    ghost size = { 2 };

    ghost value = { λ bytes. cast_signed w16 (little_number 2 bytes) };

    ghost zero_item = { pos 0 };

    ghost positive = { Prim.omega arith };

    ghost reads_front = { λ _. of-reads_front (cast_signed w16) 2 (little_number 2)
        (number-reads_front 2) };

    fn size() -> usize {
        2
    }

    fn from_slice(slice: &[u8]) -> i16 {
        LE::read_i16(slice)
    }

    fn zero() -> i16 {
        0
    }
}

impl Item for u32 {
    ghost size = { 4 };

    ghost value = { little_number 4 };

    ghost zero_item = { 0 };

    ghost positive = { Prim.omega arith };

    ghost reads_front = { λ _. number-reads_front 4 };

    fn size() -> usize {
        4
    }

    fn from_slice(slice: &[u8]) -> u32 {
        LE::read_u32(slice)
    }

    fn zero() -> u32 {
        0
    }
}

/// Four bytes that spell a number of single precision (glTF 2.0, component type 5126). They are
/// kept as they stand, the lowest byte first, and two are equal exactly where their bytes are.
#[derive(Clone, Copy, Debug, PartialEq, Eq)]
pub struct F32 {
    bytes: [u8; 4],
}

impl Model for F32 {
    ghost use Rattle.std.specs.Prelude.{ℕ, List};

    ghost Value = { List ℕ };

    ghost view = { λ f. f.bytes };

    ghost inverse = { λ bytes. record { bytes = bytes } };
}

impl F32 {
    /// The number that these bytes spell.
    pub fn from_bytes(bytes: [u8; 4]) -> F32
        ensures { result ≡ bytes }
    {
        F32 { bytes }
    }

    /// The bytes, as they stood.
    pub fn to_bytes(self) -> [u8; 4]
        ensures { result ≡ self }
    {
        self.bytes
    }

    /// The bytes of a number. A NaN has those of the quiet NaN without a sign.
    pub fn from_f32(number: f32) -> F32
        ensures { result ≡ float_bytes number }
    {
        let mut bytes = [0; 4];
        LE::write_f32(&mut bytes, number);
        F32 { bytes }
    }

    /// The number that these bytes spell. Those of a NaN give a NaN, with no sign or payload of its
    /// own.
    pub fn to_f32(self) -> f32
        ensures { result ≡ float_of self }
    {
        LE::read_f32(&self.bytes)
    }
}

/// The numbers of a vector or of a matrix, one by one as `F32::to_f32` gives them.
pub fn floats<const N: usize>(items: [F32; N]) -> [f32; N]
    ensures { result ≡ map float_of items.entry }
{
    let mut numbers = [0.0; N];
    for i in 0..N {
        numbers[i] = items[i].to_f32();
    }
    numbers
}

impl Item for F32 {
    ghost size = { 4 };

    ghost value = { take 4 };

    ghost zero_item = { 0 ∷ 0 ∷ 0 ∷ 0 ∷ [] };

    ghost positive = { Prim.omega arith };

    ghost reads_front = { λ _. take-reads_front 4 };

    fn size() -> usize {
        4
    }

    fn from_slice(slice: &[u8]) -> F32 {
        F32::from_bytes([slice[0], slice[1], slice[2], slice[3]])
    }

    fn zero() -> F32 {
        F32::from_bytes([0; 4])
    }
}

impl<T: Item + Copy> Item for [T; 2] {
    ghost size = { row_size 2 T.size };

    ghost value = { in_row 2 T.size T.value };

    ghost zero_item = { replicate 2 T.zero_item };

    ghost positive = { row-positive 1 T.size T.positive };

    ghost reads_front = { row-reads_front 1 T.size T.value T.reads_front };

    fn size() -> usize {
        T::size().saturating_mul(2)
    }

    fn from_slice(slice: &[u8]) -> [T; 2] {
        let size = T::size();
        [T::from_slice(slice), T::from_slice(&slice[size..])]
    }

    fn zero() -> [T; 2] {
        [T::zero(); 2]
    }
}

impl<T: Item + Copy> Item for [T; 3] {
    ghost size = { row_size 3 T.size };

    ghost value = { in_row 3 T.size T.value };

    ghost zero_item = { replicate 3 T.zero_item };

    ghost positive = { row-positive 2 T.size T.positive };

    ghost reads_front = { row-reads_front 2 T.size T.value T.reads_front };

    fn size() -> usize {
        T::size().saturating_mul(3)
    }

    fn from_slice(slice: &[u8]) -> [T; 3] {
        let size = T::size();
        [
            T::from_slice(slice),
            T::from_slice(&slice[size..]),
            T::from_slice(&slice[2 * size..]),
        ]
    }

    fn zero() -> [T; 3] {
        [T::zero(); 3]
    }
}

impl<T: Item + Copy> Item for [T; 4] {
    ghost size = { row_size 4 T.size };

    ghost value = { in_row 4 T.size T.value };

    ghost zero_item = { replicate 4 T.zero_item };

    ghost positive = { row-positive 3 T.size T.positive };

    ghost reads_front = { row-reads_front 3 T.size T.value T.reads_front };

    fn size() -> usize {
        T::size().saturating_mul(4)
    }

    fn from_slice(slice: &[u8]) -> [T; 4] {
        let size = T::size();
        [
            T::from_slice(slice),
            T::from_slice(&slice[size..]),
            T::from_slice(&slice[2 * size..]),
            T::from_slice(&slice[3 * size..]),
        ]
    }

    fn zero() -> [T; 4] {
        [T::zero(); 4]
    }
}
