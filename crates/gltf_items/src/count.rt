//! Counts that only contracts see.

ghost use Rattle.std.specs.Prelude.{◌≡◌, ℕ, ◌+◌, ◌-◌, ⊤};

use std::alloc::AllocError;
use std::marker::Model;
use std::snapshot::Snapshot;
use std::{fmt, mem};

/// How an amount is made.
#[cycle(amount)]
#[derive(Drop)]
enum Made {
    Zero,
    /// One more.
    Next(Snapshot<Amount>),
    /// The same again.
    Same(Snapshot<Snapshot<Amount>>),
    /// What the first is above the second.
    Above(Snapshot<Snapshot<Amount>>, Snapshot<Snapshot<Amount>>),
}

/// A number, and a bound on how deep it is made of others.
#[cycle(amount)]
#[derive(Drop)]
struct Amount {
    made: Made,
}

impl Model for Amount {
    ghost use Rattle.std.specs.Prelude.{ℕ};
    ghost use Rattle.std.proofs.Common.{arith};

    ghost Value = { ℕ × ℕ };

    ghost use Rattle.gltf_items.specs.Amount.{amount};

    ghost view = { λ a. amount a.made };

    ghost size = { λ n. n.1 };

    ghost use Rattle.gltf_items.specs.AmountFalls.{amount_falls};

    ghost size_decreases = { λ a h. Prim.omega (arith, amount_falls a.made) };
}

/// A number without limit that only contracts see, as how often something was read. It takes no
/// bytes when the program runs.
#[derive(Drop)]
pub struct Count {
    made: Snapshot<Amount>,
}

impl Model for Count {
    ghost Value = { ℕ };

    ghost view = { λ c. c.made.value.0 };
}

impl Count {
    /// Nothing counted.
    pub fn zero() -> Count
        ensures { result ≡ 0 }
    {
        Count {
            made: Snapshot::of(&Amount { made: Made::Zero }),
        }
    }

    /// One more.
    pub(crate) fn tick(&mut self)
        ensures { self.new ≡ self.old + 1 }
    {
        let before = mem::replace(&mut self.made, Snapshot::of(&Amount { made: Made::Zero }));
        self.made = Snapshot::of(&Amount {
            made: Made::Next(before),
        });
    }

    /// The same count.
    pub(crate) fn again(&self) -> Count
        ensures { result ≡ self.now }
    {
        Count {
            made: Snapshot::of(&Amount {
                made: Made::Same(Snapshot::of(&self.made)),
            }),
        }
    }

    /// What was counted since an earlier count.
    pub fn since(&self, earlier: &Count) -> Count
        ensures { result ≡ self.now - earlier.now }
    {
        Count {
            made: Snapshot::of(&Amount {
                made: Made::Above(Snapshot::of(&self.made), Snapshot::of(&earlier.made)),
            }),
        }
    }
}

impl Clone for Count {
    ghost is_clone = { λ x y. y ≡ x };

    ghost is_infallible = { λ _. ⊤ };

    fn clone(&self) -> Result<Count, AllocError> {
        Ok(self.again())
    }
}

impl fmt::Debug for Count {
    fn fmt<W: fmt::Write>(&self, f: &mut fmt::Formatter<W>) -> fmt::Result {
        f.write_str("Count")
    }
}
