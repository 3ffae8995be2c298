//! Items of accessors.
use crate::digest::{Digest, Digested};
use gltf_items::F32;

/// The bits of a float.
#[inline]
fn float(float: F32) -> u64 {
    u64::from(u32::from_le_bytes(float.to_bytes()))
}

/// The bits of two floats.
#[inline]
fn floats(first: F32, second: F32) -> u64 {
    float(first) ^ float(second).rotate_left(32)
}

/// The bits of a number of one byte with a sign.
#[inline]
fn byte(number: i8) -> u64 {
    u64::from(u8::from_le_bytes(number.to_le_bytes()))
}

/// The bits of a number of two bytes with a sign.
#[inline]
fn short(number: i16) -> u64 {
    u64::from(u16::from_le_bytes(number.to_le_bytes()))
}

/// The bits of four numbers of at most two bytes each.
#[inline]
fn four(x: u64, y: u64, z: u64, w: u64) -> u64 {
    x ^ y.rotate_left(16) ^ z.rotate_left(32) ^ w.rotate_left(48)
}

impl Digested for u8 {
    #[inline]
    fn add_to(&self, digest: &mut Digest) {
        digest.add(u64::from(*self));
    }
}

impl Digested for i8 {
    #[inline]
    fn add_to(&self, digest: &mut Digest) {
        digest.add(byte(*self));
    }
}

impl Digested for u16 {
    #[inline]
    fn add_to(&self, digest: &mut Digest) {
        digest.add(u64::from(*self));
    }
}

impl Digested for i16 {
    #[inline]
    fn add_to(&self, digest: &mut Digest) {
        digest.add(short(*self));
    }
}

impl Digested for u32 {
    #[inline]
    fn add_to(&self, digest: &mut Digest) {
        digest.add(u64::from(*self));
    }
}

impl Digested for F32 {
    #[inline]
    fn add_to(&self, digest: &mut Digest) {
        digest.add(float(*self));
    }
}

impl Digested for [F32; 2] {
    #[inline]
    fn add_to(&self, digest: &mut Digest) {
        let [x, y] = *self;
        digest.add(floats(x, y));
    }
}

impl Digested for [F32; 3] {
    #[inline]
    fn add_to(&self, digest: &mut Digest) {
        let [x, y, z] = *self;
        digest.pair(floats(x, y), float(z));
    }
}

impl Digested for [F32; 4] {
    #[inline]
    fn add_to(&self, digest: &mut Digest) {
        let [x, y, z, w] = *self;
        digest.pair(floats(x, y), floats(z, w));
    }
}

impl Digested for [[F32; 4]; 4] {
    #[inline]
    fn add_to(&self, digest: &mut Digest) {
        for column in self {
            column.add_to(digest);
        }
    }
}

impl Digested for [u8; 2] {
    #[inline]
    fn add_to(&self, digest: &mut Digest) {
        digest.add(u64::from(u16::from_le_bytes(*self)));
    }
}

impl Digested for [u8; 4] {
    #[inline]
    fn add_to(&self, digest: &mut Digest) {
        digest.add(u64::from(u32::from_le_bytes(*self)));
    }
}

impl Digested for [i8; 4] {
    #[inline]
    fn add_to(&self, digest: &mut Digest) {
        let [x, y, z, w] = *self;
        digest.add(four(byte(x), byte(y), byte(z), byte(w)));
    }
}

impl Digested for [u16; 2] {
    #[inline]
    fn add_to(&self, digest: &mut Digest) {
        let [x, y] = *self;
        digest.add(four(u64::from(x), u64::from(y), 0, 0));
    }
}

impl Digested for [u16; 4] {
    #[inline]
    fn add_to(&self, digest: &mut Digest) {
        let [x, y, z, w] = *self;
        digest.add(four(u64::from(x), u64::from(y), u64::from(z), u64::from(w)));
    }
}

impl Digested for [i16; 4] {
    #[inline]
    fn add_to(&self, digest: &mut Digest) {
        let [x, y, z, w] = *self;
        digest.add(four(short(x), short(y), short(z), short(w)));
    }
}
