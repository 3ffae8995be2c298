//! Types of items, by their names in cases.
pub use gltf::accessor::F32;

/// Calls a function at the type that a word names: `u8x3` stands for `[u8; 3]`.
#[macro_export]
macro_rules! by_type {
    ($word:expr, $line:ident, $call:ident($($given:expr),*)) => {
        match $word {
            "i8" => $call::<i8>($($given,)* $line),
            "u8" => $call::<u8>($($given,)* $line),
            "i16" => $call::<i16>($($given,)* $line),
            "u16" => $call::<u16>($($given,)* $line),
            "u32" => $call::<u32>($($given,)* $line),
            "f32" => $call::<$crate::types::F32>($($given,)* $line),
            "i8x2" => $call::<[i8; 2]>($($given,)* $line),
            "u8x2" => $call::<[u8; 2]>($($given,)* $line),
            "f32x2" => $call::<[$crate::types::F32; 2]>($($given,)* $line),
            "i8x3" => $call::<[i8; 3]>($($given,)* $line),
            "u8x3" => $call::<[u8; 3]>($($given,)* $line),
            "f32x3" => $call::<[$crate::types::F32; 3]>($($given,)* $line),
            "u8x4" => $call::<[u8; 4]>($($given,)* $line),
            "u16x4" => $call::<[u16; 4]>($($given,)* $line),
            "u8x2x2" => $call::<[[u8; 2]; 2]>($($given,)* $line),
            _ => $line.push_str("no type"),
        }
    };
}
