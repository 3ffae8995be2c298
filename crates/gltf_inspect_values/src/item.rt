//! Items as their bytes.

ghost use Rattle.std.specs.Prelude.{take, replicate};
ghost use Rattle.gltf_inspect_values.specs.Items.{front, front-positive, front-reads_front};

use gltf_items::Item;
use std::marker::Model;

/// The bytes of an item, as they stand.
#[derive(Clone, Copy)]
pub(crate) struct ItemBytes<const N: usize> {
    pub(crate) bytes: [u8; N],
}

impl<const N: usize> Model for ItemBytes<N> {
    ghost use Rattle.std.specs.Prelude.{ℕ, List};

    ghost Value = { List ℕ };

    ghost view = { λ f. f.bytes };

    ghost inverse = { λ bytes. record { bytes = bytes } };
}

impl<const N: usize> Item for ItemBytes<N> {
    ghost size = { front N };

    ghost value = { take N };

    ghost zero_item = { replicate N 0 };

    ghost positive = { front-positive N };

    ghost reads_front = { λ _. front-reads_front N };

    fn size() -> usize {
        if N == 0 { 1 } else { N }
    }

    fn from_slice(slice: &[u8]) -> ItemBytes<N> {
        let mut bytes = [0; N];
        bytes.copy_from_slice(&slice[..N]);
        ItemBytes { bytes }
    }

    fn zero() -> ItemBytes<N> {
        ItemBytes { bytes: [0; N] }
    }
}
