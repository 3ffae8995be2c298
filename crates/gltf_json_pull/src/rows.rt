//! The rows of the tables of records, as members come in one after another.
ghost use Rattle.std.specs.Prelude.{IfSome, ℕ, List};
ghost use Rattle.serde_json.specs.Data.{Data};
ghost use Rattle.gltf_json_record.specs.Lists.{list};
ghost use Rattle.gltf_json_record.specs.Table.{required, optional, defaulted, listed};
ghost use Rattle.gltf_json_pull.specs.Pulls.{found};

use crate::pull::{FromToken, member};
use gltf_json_record::rows::{Last, Listed, Optional, OrDefault, Required, Row, Rows};
use json::Reader;
use std::alloc::Global;

/// A row of a table: what it makes of the member that has been found.
pub trait PullRow: Row {
    ghost use Rattle.std.specs.Prelude.{ℕ, List, IfSome};
    ghost use Rattle.serde_json.specs.Data.{Data};
    ghost use Rattle.gltf_json_pull.specs.Pulls.{found};

    /// What the member is read as where it is there.
    type Of: FromToken;

    /// What the row reads of the member. None where it has to be there and is not.
    fn made(&self, alloc: Global, member: Option<Self::Of>) -> Option<Self::Read>
        ensures { IfSome result (λ r. (name : List ℕ) (d : Data)
            → (found name Self.Of.kind).is d member → (Self.row_kind self.now name).is d r) };
}

/// Rows, one after another.
pub trait PullRows: Rows {
    ghost use Rattle.std.specs.Prelude.{◌≡◌, ◌≢◌, ◌≤◌, [], ℕ, List, true, false, map, IfSome};
    ghost use Rattle.std.specs.Bool.{MatchBool};
    ghost use Rattle.serde_json.specs.Data.{Data, Members, object, no_members, put};
    ghost use Rattle.serde_json.specs.Read.{max_depth};
    ghost use Rattle.gltf_json_record.specs.Kind.{Kind};
    ghost use Rattle.gltf_json_record.specs.Member.{is_one_of};
    ghost use Rattle.gltf_json_pull.specs.Pulls.{Takes, are_distinct};

    /// What has been found of the members.
    type Found: Drop;

    ghost found_kind: { Self → List (List ℕ) → Kind Self.Found };

    /// What has been found before any member.
    fn nothing(&self) -> Self::Found
        ensures { (names : List (List ℕ))
            → (found_kind self.now names).is (object no_members) result };

    /// Takes the value of the member `name`, which comes next, if a row reads it; the answer says
    /// whether one does. None as in `FromToken`.
    fn step(
        &self,
        alloc: Global,
        found: &mut Self::Found,
        name: &str,
        names: &[&'static str],
        rest: &mut Reader<'_>,
        depth: usize,
    ) -> Option<bool>
        requires distinct { are_distinct (map (λ n. n.now) names.now) ≡ true }
        requires some { name.now ≢ [] }
        requires deep { depth ≤ max_depth }
        ensures { IfSome result (λ took. MatchBool took
            (Takes (found_kind self.now (map (λ n. n.now) names.now)) name.now depth
            found.old rest.old found.new rest.new)
            ((rest.new ≡ rest.old) × (found.new ≡ found.old)
            × (is_one_of (map (λ n. n.now) names.now) name.now ≡ false))) };

    /// What the rows read of the members that have been found.
    fn made(&self, alloc: Global, found: Self::Found) -> Option<Self::Read>
        ensures { IfSome result (λ r. (names : List (List ℕ)) (d : Data)
            → (found_kind self.now names).is d found → (Self.rows_kind self.now names).is d r) };

    ghost apart: { (rows : Self) (names : List (List ℕ)) (name : List ℕ) (d : Data) (ms : Members)
        (x : Self.Found) → is_one_of names name ≡ false → ([] ≡ name → ⊥)
        → (found_kind rows names).is (object ms) x
        → (found_kind rows names).is (object (put name d ms)) x };
}

impl<T: FromToken> PullRow for Required<T> {
    type Of = T;

    #[inline(always)]
    fn made(&self, _alloc: Global, member: Option<T>) -> Option<T>
        ensures { IfSome result (λ r. (name : List ℕ) (d : Data)
            → (found name T.kind).is d member → (required name (λ x. x) T.kind).is d r) }
    {
        member
    }
}

impl<T: FromToken> PullRow for Optional<T> {
    type Of = T;

    #[inline(always)]
    fn made(&self, _alloc: Global, member: Option<T>) -> Option<Option<T>>
        ensures { IfSome result (λ r. (name : List ℕ) (d : Data)
            → (found name T.kind).is d member → (optional name (λ x. x) T.kind).is d r) }
    {
        Some(member)
    }
}

impl<T: FromToken + Copy> PullRow for OrDefault<T> {
    type Of = T;

    #[inline(always)]
    fn made(&self, _alloc: Global, member: Option<T>) -> Option<T>
        ensures { IfSome result (λ r. (name : List ℕ) (d : Data)
            → (found name T.kind).is d member
            → (defaulted name (λ x. x) self.now.default T.kind).is d r) }
    {
        Some(member.unwrap_or(self.default))
    }
}

impl<T: FromToken> PullRow for Listed<T> {
    type Of = Vec<T>;

    #[inline(always)]
    fn made(&self, alloc: Global, member: Option<Vec<T>>) -> Option<Vec<T>>
        ensures { IfSome result (λ r. (name : List ℕ) (d : Data)
            → (found name (list T.kind)).is d member → (listed name (λ x. x) T.kind).is d r) }
    {
        Some(member.unwrap_or(Vec::new(alloc)))
    }
}

impl<A: PullRow> PullRows for Last<A> {
    ghost use Rattle.gltf_json_record.specs.Table.{first_name};
    ghost use Rattle.gltf_json_pull.specs.Pulls.{found};
    ghost use Rattle.gltf_json_pull.specs.PullLaws.{first_apart};

    type Found = Option<A::Of>;

    ghost found_kind = { λ rows names. found (first_name names) A.Of.kind };

    #[inline(always)]
    fn nothing(&self) -> Option<A::Of> {
        None
    }

    #[inline(always)]
    fn step(
        &self,
        alloc: Global,
        found: &mut Option<A::Of>,
        name: &str,
        names: &[&'static str],
        rest: &mut Reader<'_>,
        depth: usize,
    ) -> Option<bool> {
        let (own, others) = names.split_first()?;
        if !others.is_empty() {
            return None;
        }
        if name == *own {
            *found = member(alloc, rest, depth)?;
            return Some(true);
        }
        Some(false)
    }

    #[inline(always)]
    fn made(&self, alloc: Global, found: Option<A::Of>) -> Option<A::Read> {
        self.row.made(alloc, found)
    }

    ghost apart = { λ rows names name d ms x. first_apart A.Of.kind names name d ms x };
}

impl<A: PullRow, B: PullRows> PullRows for (A, B) {
    ghost use Rattle.gltf_json_record.specs.Table.{pair, first_name, other_names};
    ghost use Rattle.gltf_json_pull.specs.Pulls.{found};
    ghost use Rattle.gltf_json_pull.specs.PullLaws.{first_apart, others_lack};

    type Found = (Option<A::Of>, B::Found);

    ghost found_kind = { λ rows names.
        pair (found (first_name names) A.Of.kind) (B.found_kind rows.1 (other_names names)) };

    #[inline(always)]
    fn nothing(&self) -> (Option<A::Of>, B::Found) {
        (None, self.1.nothing())
    }

    #[inline(always)]
    fn step(
        &self,
        alloc: Global,
        found: &mut (Option<A::Of>, B::Found),
        name: &str,
        names: &[&'static str],
        rest: &mut Reader<'_>,
        depth: usize,
    ) -> Option<bool> {
        let (own, others) = names.split_first()?;
        if name == *own {
            found.0 = member(alloc, rest, depth)?;
            return Some(true);
        }
        let took = self.1.step(alloc, &mut found.1, name, others, rest, depth)?;
        Some(took)
    }

    #[inline(always)]
    fn made(&self, alloc: Global, found: (Option<A::Of>, B::Found)) -> Option<(A::Read, B::Read)> {
        let first = self.0.made(alloc, found.0)?;
        Some((first, self.1.made(alloc, found.1)?))
    }

    ghost apart = { λ rows names name d ms x lacks some is. (
      first_apart A.Of.kind names name d ms x.0 lacks some is.0,
      B.apart rows.1 (other_names names) name d ms x.1 (others_lack names name lacks) some is.1,
    ) };
}

impl<A: PullRow, B: PullRow, C: PullRows> PullRows for (A, B, C) {
    ghost use Rattle.gltf_json_record.specs.Table.{pair, first_name, other_names};
    ghost use Rattle.gltf_json_pull.specs.Pulls.{found};
    ghost use Rattle.gltf_json_pull.specs.PullLaws.{first_apart, others_lack};

    type Found = (Option<A::Of>, (Option<B::Of>, C::Found));

    ghost found_kind = { λ rows names. pair (found (first_name names) A.Of.kind)
        (pair (found (first_name (other_names names)) B.Of.kind)
        (C.found_kind rows.2 (other_names (other_names names)))) };

    #[inline(always)]
    fn nothing(&self) -> Self::Found {
        (self.0, (self.1, self.2)).nothing()
    }

    #[inline(always)]
    fn step(
        &self,
        alloc: Global,
        found: &mut Self::Found,
        name: &str,
        names: &[&'static str],
        rest: &mut Reader<'_>,
        depth: usize,
    ) -> Option<bool> {
        (self.0, (self.1, self.2)).step(alloc, found, name, names, rest, depth)
    }

    #[inline(always)]
    fn made(&self, alloc: Global, found: Self::Found) -> Option<Self::Read> {
        let (a, (b, c)) = (self.0, (self.1, self.2)).made(alloc, found)?;
        Some((a, b, c))
    }

    ghost apart = { λ rows names name d ms x lacks some is. (
      first_apart A.Of.kind names name d ms x.0 lacks some is.0,
      (
        first_apart B.Of.kind (other_names names) name d ms x.1.0
            (others_lack names name lacks) some is.1.0,
        C.apart rows.2 (other_names (other_names names)) name d ms x.1.1
            (others_lack (other_names names) name (others_lack names name lacks)) some is.1.1,
      ),
    ) };
}

impl<A: PullRow, B: PullRow, C: PullRow, D: PullRows> PullRows for (A, B, C, D) {
    ghost use Rattle.gltf_json_record.specs.Table.{pair, first_name, other_names};
    ghost use Rattle.gltf_json_pull.specs.Pulls.{found};
    ghost use Rattle.gltf_json_pull.specs.PullLaws.{first_apart, others_lack};

    type Found = (Option<A::Of>, (Option<B::Of>, (Option<C::Of>, D::Found)));

    ghost found_kind = { λ rows names. pair (found (first_name names) A.Of.kind)
        (pair (found (first_name (other_names names)) B.Of.kind)
        (pair (found (first_name (other_names (other_names names))) C.Of.kind)
        (D.found_kind rows.3 (other_names (other_names (other_names names)))))) };

    #[inline(always)]
    fn nothing(&self) -> Self::Found {
        (self.0, (self.1, (self.2, self.3))).nothing()
    }

    #[inline(always)]
    fn step(
        &self,
        alloc: Global,
        found: &mut Self::Found,
        name: &str,
        names: &[&'static str],
        rest: &mut Reader<'_>,
        depth: usize,
    ) -> Option<bool> {
        (self.0, (self.1, (self.2, self.3))).step(alloc, found, name, names, rest, depth)
    }

    #[inline(always)]
    fn made(&self, alloc: Global, found: Self::Found) -> Option<Self::Read> {
        let (a, (b, (c, d))) = (self.0, (self.1, (self.2, self.3))).made(alloc, found)?;
        Some((a, b, c, d))
    }

    ghost apart = { λ rows names name d ms x lacks some is. (
      first_apart A.Of.kind names name d ms x.0 lacks some is.0,
      (
        first_apart B.Of.kind (other_names names) name d ms x.1.0
            (others_lack names name lacks) some is.1.0,
        (
          first_apart C.Of.kind (other_names (other_names names)) name d ms x.1.1.0
              (others_lack (other_names names) name (others_lack names name lacks)) some is.1.1.0,
          D.apart rows.3 (other_names (other_names (other_names names))) name d ms x.1.1.1
              (others_lack (other_names (other_names names)) name
              (others_lack (other_names names) name (others_lack names name lacks))) some is.1.1.1,
        ),
      ),
    ) };
}

impl<A: PullRow, B: PullRow, C: PullRow, D: PullRow, E: PullRows> PullRows for (A, B, C, D, E) {
    ghost use Rattle.gltf_json_record.specs.Table.{pair, first_name, other_names};
    ghost use Rattle.gltf_json_pull.specs.Pulls.{found};
    ghost use Rattle.gltf_json_pull.specs.PullLaws.{first_apart, others_lack};

    type Found = (
        Option<A::Of>,
        (Option<B::Of>, (Option<C::Of>, (Option<D::Of>, E::Found))),
    );

    ghost found_kind = { λ rows names. pair (found (first_name names) A.Of.kind)
        (pair (found (first_name (other_names names)) B.Of.kind)
        (pair (found (first_name (other_names (other_names names))) C.Of.kind)
        (pair (found (first_name (other_names (other_names (other_names names)))) D.Of.kind)
        (E.found_kind rows.4 (other_names (other_names (other_names (other_names names)))))))) };

    #[inline(always)]
    fn nothing(&self) -> Self::Found {
        (self.0, (self.1, (self.2, (self.3, self.4)))).nothing()
    }

    #[inline(always)]
    fn step(
        &self,
        alloc: Global,
        found: &mut Self::Found,
        name: &str,
        names: &[&'static str],
        rest: &mut Reader<'_>,
        depth: usize,
    ) -> Option<bool> {
        (self.0, (self.1, (self.2, (self.3, self.4)))).step(alloc, found, name, names, rest, depth)
    }

    #[inline(always)]
    fn made(&self, alloc: Global, found: Self::Found) -> Option<Self::Read> {
        let (a, (b, (c, (d, e)))) = (self.0, (self.1, (self.2, (self.3, self.4)))).made(
            alloc, found,
        )?;
        Some((a, b, c, d, e))
    }

    ghost apart = { λ rows names name d ms x lacks some is. (
      first_apart A.Of.kind names name d ms x.0 lacks some is.0,
      (
        first_apart B.Of.kind (other_names names) name d ms x.1.0
            (others_lack names name lacks) some is.1.0,
        (
          first_apart C.Of.kind (other_names (other_names names)) name d ms x.1.1.0
              (others_lack (other_names names) name (others_lack names name lacks)) some is.1.1.0,
          (
            first_apart D.Of.kind (other_names (other_names (other_names names))) name d ms
                x.1.1.1.0
                (others_lack (other_names (other_names names)) name
                (others_lack (other_names names) name (others_lack names name lacks)))
                some is.1.1.1.0,
            E.apart rows.4 (other_names (other_names (other_names (other_names names)))) name d ms
                x.1.1.1.1
                (others_lack (other_names (other_names (other_names names))) name
                (others_lack (other_names (other_names names)) name
                (others_lack (other_names names) name (others_lack names name lacks))))
                some is.1.1.1.1,
          ),
        ),
      ),
    ) };
}
