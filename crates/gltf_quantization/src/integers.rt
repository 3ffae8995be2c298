//! Integers of an accessor, by their type.
ghost use Rattle.gltf_handles.specs.Accessors.{accessor_handle};
ghost use Rattle.gltf_read.specs.Reading.{IsRead, AreItems};
ghost use Rattle.gltf_quantization.specs.Quantized.{AreIntegers};

use gltf_data::accessor::{Accessor, DataType, Iter};
use gltf_data::buffer::Buffer;
use gltf_items::Item;

/// Items of an accessor, by the type of their components. The types of the items are parameters, as
/// `[i8; 3]`, `[u8; 3]`, `[i16; 3]` and `[u16; 3]` of positions.
#[derive(Clone, Debug, Drop)]
pub enum Integers<'s, A: Item, B: Item, C: Item, D: Item> {
    /// Signed, of one byte.
    I8(Iter<'s, A>),
    /// Unsigned, of one byte.
    U8(Iter<'s, B>),
    /// Signed, of two bytes.
    I16(Iter<'s, C>),
    /// Unsigned, of two bytes.
    U16(Iter<'s, D>),
}

/// Items of one type.
fn items<'s, T: Item, F: Fn(Buffer) -> Option<&'s [u8]>>(
    accessor: Accessor,
    get_buffer_data: &F,
) -> Option<Iter<'s, T>>
    requires { F.IsAlwaysCallable get_buffer_data.now }
    ensures { let a = accessor_handle accessor.entry in
        AreItems (IsRead (λ b o. F.post get_buffer_data.now b o) a.document a.json) a.json result }
{
    Iter::new(accessor, get_buffer_data)
}

/// The integers of an accessor, by the type of its components; None where these are no integers of
/// one or two bytes, or where the accessor cannot be read.
pub(crate) fn read_integers<
    's,
    A: Item,
    B: Item,
    C: Item,
    D: Item,
    F: Fn(Buffer) -> Option<&'s [u8]>,
>(accessor: Accessor, get_buffer_data: &F) -> Option<Integers<'s, A, B, C, D>>
    requires { F.IsAlwaysCallable get_buffer_data.now }
    ensures { let a = accessor_handle accessor.entry in
        AreIntegers (IsRead (λ b o. F.post get_buffer_data.now b o) a.document a.json)
        a.json result }
{
    match accessor.data_type() {
        DataType::I8 => Some(Integers::I8(items(accessor, get_buffer_data)?)),
        DataType::U8 => Some(Integers::U8(items(accessor, get_buffer_data)?)),
        DataType::I16 => Some(Integers::I16(items(accessor, get_buffer_data)?)),
        DataType::U16 => Some(Integers::U16(items(accessor, get_buffer_data)?)),
        _ => None,
    }
}
