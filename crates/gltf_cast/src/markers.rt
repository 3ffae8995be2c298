//! What numbers are cast to.

use crate::number::Number;

/// A type that names what numbers are cast to. The modules of casts have their markers from here,
/// so a marker of one name is one type in all of them.
pub trait Marker {
    /// The numbers.
    type Number: Number;
}

/// To numbers of one byte with a sign.
#[derive(Clone, Copy, Debug)]
pub struct I8;

impl Marker for I8 {
    type Number = i8;
}

/// To numbers of one byte.
#[derive(Clone, Copy, Debug)]
pub struct U8;

impl Marker for U8 {
    type Number = u8;
}

/// To numbers of two bytes with a sign.
#[derive(Clone, Copy, Debug)]
pub struct I16;

impl Marker for I16 {
    type Number = i16;
}

/// To numbers of two bytes.
#[derive(Clone, Copy, Debug)]
pub struct U16;

impl Marker for U16 {
    type Number = u16;
}
