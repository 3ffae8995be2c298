//! Unsigned numbers as items: indices of vertices.
use gltf_items::Item;

/// An unsigned number of one, two or four bytes.
pub trait Number: Item {
    ghost use Rattle.std.specs.Prelude.{◌≡◌, ℕ};

    /// What it stands for.
    ghost number: { Self → ℕ };

    /// The greatest number of the type.
    ghost most: { ℕ };

    /// The same, in eight bytes.
    fn number(&self) -> u64
        ensures { result ≡ number self.now };

    /// The greatest number of the type.
    fn most() -> u64
        ensures { result ≡ most };
}

impl Number for u8 {
    ghost number = { λ n. n };

    ghost most = { 255 };

    fn number(&self) -> u64 {
        *self as u64
    }

    fn most() -> u64 {
        255
    }
}

impl Number for u16 {
    ghost number = { λ n. n };

    ghost most = { 65535 };

    fn number(&self) -> u64 {
        *self as u64
    }

    fn most() -> u64 {
        65535
    }
}

impl Number for u32 {
    ghost number = { λ n. n };

    ghost most = { 4294967295 };

    fn number(&self) -> u64 {
        *self as u64
    }

    fn most() -> u64 {
        4294967295
    }
}
