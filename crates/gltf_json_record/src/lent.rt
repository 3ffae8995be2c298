//! Members of a record, lent one after the other, that are copied by one call.
use crate::copy::{Copies, map_copy, option_copy};
use serde_json::{Map, Value};
use std::alloc::{AllocError, Global};

/// What is lent to be copied.
pub trait Lent: Copy {
    ghost use Rattle.std.specs.Prelude.{IfOk};

    /// The copy.
    type Owned: Drop;

    /// What a copy has to show.
    ghost is_copied: { Self → Self.Owned → Type 0 };

    /// A copy of each, in turn.
    fn copied(&self, alloc: Global) -> Result<Self::Owned, AllocError>
        ensures { IfOk result (is_copied self.now) };
}

/// A member.
#[derive_where(Clone, Copy)]
pub struct Member<'a, T>(pub &'a T);

impl<T: Copies> Lent for Member<'_, T> {
    ghost use Rattle.gltf_json_record.specs.Copy.{IsCopy};

    type Owned = T;

    ghost is_copied = { λ member copy. IsCopy T.kind member.0.now copy };

    fn copied(&self, alloc: Global) -> Result<T, AllocError> {
        self.0.copy(alloc)
    }
}

/// A member that may be absent.
#[derive_where(Clone, Copy)]
pub struct Maybe<'a, T>(pub &'a Option<T>);

impl<T: Copies> Lent for Maybe<'_, T> {
    ghost use Rattle.std.specs.Prelude.{◌≡◌, option_map};

    type Owned = Option<T>;

    ghost is_copied = { λ member copy.
        option_map T.kind.content copy ≡ option_map T.kind.content member.0.now };

    fn copied(&self, alloc: Global) -> Result<Option<T>, AllocError> {
        option_copy(alloc, self.0)
    }
}

/// The members that no table names.
#[derive(Clone, Copy)]
pub struct Unnamed<'a>(pub &'a Map<String, Value>);

impl Lent for Unnamed<'_> {
    ghost use Rattle.std.specs.Prelude.{◌≡◌};
    ghost use Rattle.gltf_json_record.specs.Found.{found_in};

    type Owned = Map<String, Value>;

    ghost is_copied = { λ members copy. found_in copy ≡ found_in members.0.now };

    fn copied(&self, _alloc: Global) -> Result<Map<String, Value>, AllocError> {
        map_copy(self.0)
    }
}

impl<A: Lent, B: Lent> Lent for (A, B) {
    type Owned = (A::Owned, B::Owned);

    ghost is_copied = { λ members copies.
        A.is_copied members.0 copies.0 × B.is_copied members.1 copies.1 };

    fn copied(&self, alloc: Global) -> Result<Self::Owned, AllocError> {
        let first = self.0.copied(alloc)?;
        let rest = self.1.copied(alloc)?;
        Ok((first, rest))
    }
}

impl<A: Lent, B: Lent, C: Lent> Lent for (A, B, C) {
    type Owned = (A::Owned, B::Owned, C::Owned);

    ghost is_copied = { λ members copies.
        A.is_copied members.0 copies.0
        × B.is_copied members.1 copies.1
        × C.is_copied members.2 copies.2 };

    fn copied(&self, alloc: Global) -> Result<Self::Owned, AllocError> {
        let (a, (b, c)) = (self.0, (self.1, self.2)).copied(alloc)?;
        Ok((a, b, c))
    }
}

impl<A: Lent, B: Lent, C: Lent, D: Lent> Lent for (A, B, C, D) {
    type Owned = (A::Owned, B::Owned, C::Owned, D::Owned);

    ghost is_copied = { λ members copies.
        A.is_copied members.0 copies.0
        × B.is_copied members.1 copies.1
        × C.is_copied members.2 copies.2
        × D.is_copied members.3 copies.3 };

    fn copied(&self, alloc: Global) -> Result<Self::Owned, AllocError> {
        let (a, (b, (c, d))) = (self.0, (self.1, (self.2, self.3))).copied(alloc)?;
        Ok((a, b, c, d))
    }
}

impl<A: Lent, B: Lent, C: Lent, D: Lent, E: Lent> Lent for (A, B, C, D, E) {
    type Owned = (A::Owned, B::Owned, C::Owned, D::Owned, E::Owned);

    ghost is_copied = { λ members copies.
        A.is_copied members.0 copies.0
        × B.is_copied members.1 copies.1
        × C.is_copied members.2 copies.2
        × D.is_copied members.3 copies.3
        × E.is_copied members.4 copies.4 };

    fn copied(&self, alloc: Global) -> Result<Self::Owned, AllocError> {
        let (a, (b, (c, (d, e)))) = (self.0, (self.1, (self.2, (self.3, self.4)))).copied(alloc)?;
        Ok((a, b, c, d, e))
    }
}
