//! One number of all results.

/// A number of what was added, in its order.
#[derive(Clone, Copy)]
pub struct Digest(u64);

/// What a number is multiplied by: odd, so that no two numbers become one.
const FACTOR: u64 = 0x517c_c1b7_2722_0a95;

/// The mark of what is absent. No count, index or code of a file that is made here is as large.
const ABSENT: u64 = 0xab5e_4e70_ab5e_4e70;

/// A result that has a place in a digest.
pub trait Digested {
    /// Adds all of it.
    fn add_to(&self, digest: &mut Digest);
}

impl Digest {
    /// The number of nothing.
    #[inline]
    pub fn new() -> Digest {
        Digest(0)
    }

    /// Adds a number.
    #[inline]
    pub fn add(&mut self, number: u64) {
        self.0 = (self.0.rotate_left(5) ^ number).wrapping_mul(FACTOR);
    }

    /// Adds two numbers, for little more than one costs.
    #[inline]
    pub fn pair(&mut self, first: u64, second: u64) {
        self.add(first);
        self.0 = self.0.wrapping_add(second);
    }

    /// Adds a count or an index.
    #[inline]
    pub fn count(&mut self, count: usize) {
        self.add(count as u64);
    }

    /// Adds that something is absent.
    #[inline]
    pub fn absent(&mut self) {
        self.add(ABSENT);
    }

    /// Adds all bytes, and how many there are.
    pub fn bytes(&mut self, bytes: &[u8]) {
        // A copy, which stays in a register.
        let mut own = *self;
        let (blocks, rest) = bytes.as_chunks::<32>();
        for block in blocks {
            let (words, _none) = block.as_chunks::<8>();
            if let [a, b, c, d] = words {
                own.pair(u64::from_le_bytes(*a), u64::from_le_bytes(*b));
                own.pair(u64::from_le_bytes(*c), u64::from_le_bytes(*d));
            }
        }
        own.few_bytes(rest);
        own.count(bytes.len());
        *self = own;
    }

    /// Adds a few bytes, eight at a time.
    fn few_bytes(&mut self, bytes: &[u8]) {
        let (words, rest) = bytes.as_chunks::<8>();
        for word in words {
            self.add(u64::from_le_bytes(*word));
        }
        let mut last = 0u64;
        for byte in rest {
            last = last.rotate_left(8) ^ u64::from(*byte);
        }
        self.add(last);
    }

    /// The number of all that was added.
    #[inline]
    pub fn number(self) -> u64 {
        self.0
    }
}
