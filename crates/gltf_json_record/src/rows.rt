//! The rows of the tables of records. A record is read by one call, whose rows stand as in its
//! table; their names go beside them, one after the other.
ghost use Rattle.std.specs.Prelude.{IfOk, IfErr, map};
ghost use Rattle.serde_json.specs.View.{view};
ghost use Rattle.gltf_json_record.specs.Fault.{Tells};
ghost use Rattle.gltf_json_record.specs.Table.{table};

use crate::error::Error;
use crate::lists::list_or_empty;
use crate::others::others;
use crate::read::{FromValue, object, optional, or_default, required};
use serde_json::{Map, Value};
use std::alloc::Global;
use std::marker::PhantomData;

/// A row of a table: how the member of a name is read.
pub trait Row: Copy {
    ghost use Rattle.std.specs.Prelude.{IfOk, IfErr, List, ℕ};
    ghost use Rattle.serde_json.specs.View.{view};
    ghost use Rattle.gltf_json_record.specs.Fault.{Tells};
    ghost use Rattle.gltf_json_record.specs.Kind.{Kind};

    /// What it is read as.
    type Read: Drop;

    /// The kind of a record with this row alone, for a member of this name.
    ghost row_kind: { Self → List ℕ → Kind Self.Read };

    /// Reads the member of this name; or a fault that stands there, or out of memory.
    fn read(&self, alloc: Global, value: &Value, name: &'static str) -> Result<Self::Read, Error>
        ensures ok { IfOk result ((row_kind self.now name.now).is (view value.now)) }
        ensures err { IfErr result (Tells ((row_kind self.now name.now).fault (view value.now))) };
}

/// Rows, one after the other.
pub trait Rows: Copy {
    ghost use Rattle.std.specs.Prelude.{IfOk, IfErr, IsSome, List, map, ℕ};
    ghost use Rattle.serde_json.specs.Find.{as_object};
    ghost use Rattle.serde_json.specs.View.{view};
    ghost use Rattle.gltf_json_record.specs.Fault.{Tells};
    ghost use Rattle.gltf_json_record.specs.Kind.{Kind};

    /// What they are read as.
    type Read: Drop;

    /// The kind of a record with these rows, for members of these names.
    ghost rows_kind: { Self → List (List ℕ) → Kind Self.Read };

    /// Reads the members of these names of an object.
    fn read(
        &self,
        alloc: Global,
        value: &Value,
        names: &[&'static str],
    ) -> Result<Self::Read, Error>
        requires { IsSome (as_object (view value.now)) }
        ensures ok { IfOk result
            ((rows_kind self.now (map (λ n. n.now) names.now)).is (view value.now)) }
        ensures err { IfErr result
            (Tells ((rows_kind self.now (map (λ n. n.now) names.now)).fault (view value.now))) };
}

/// A member that has to be there.
#[derive_where(Clone, Copy)]
pub struct Required<T> {
    /// What it is read as.
    pub of: PhantomData<T>,
}

impl<T: FromValue> Row for Required<T> {
    ghost use Rattle.gltf_json_record.specs.Table.{required};

    type Read = T;

    ghost row_kind = { λ _ name. required name (λ x. x) T.kind };

    #[inline(always)]
    fn read(&self, alloc: Global, value: &Value, name: &'static str) -> Result<T, Error> {
        required(alloc, value, name)
    }
}

/// A member that may be absent.
#[derive_where(Clone, Copy)]
pub struct Optional<T> {
    /// What it is read as.
    pub of: PhantomData<T>,
}

impl<T: FromValue> Row for Optional<T> {
    ghost use Rattle.gltf_json_record.specs.Table.{optional};

    type Read = Option<T>;

    ghost row_kind = { λ _ name. optional name (λ x. x) T.kind };

    #[inline(always)]
    fn read(&self, alloc: Global, value: &Value, name: &'static str) -> Result<Option<T>, Error> {
        optional(alloc, value, name)
    }
}

/// A member that stands for a default where it is absent.
#[derive(Clone, Copy)]
pub struct OrDefault<T> {
    /// What it stands for.
    pub default: T,
}

impl<T: FromValue + Copy> Row for OrDefault<T> {
    ghost use Rattle.gltf_json_record.specs.Table.{defaulted};

    type Read = T;

    ghost row_kind = { λ row name. defaulted name (λ x. x) row.default T.kind };

    #[inline(always)]
    fn read(&self, alloc: Global, value: &Value, name: &'static str) -> Result<T, Error> {
        or_default(alloc, value, name, self.default)
    }
}

/// An array that is empty where its member is absent.
#[derive_where(Clone, Copy)]
pub struct Listed<T> {
    /// What each element is read as.
    pub of: PhantomData<T>,
}

impl<T: FromValue> Row for Listed<T> {
    ghost use Rattle.gltf_json_record.specs.Table.{listed};

    type Read = Vec<T>;

    ghost row_kind = { λ _ name. listed name (λ x. x) T.kind };

    #[inline(always)]
    fn read(&self, alloc: Global, value: &Value, name: &'static str) -> Result<Vec<T>, Error> {
        list_or_empty(alloc, value, name)
    }
}

/// The last row of a table.
#[derive(Clone, Copy)]
pub struct Last<A> {
    /// The row.
    pub row: A,
}

impl<A: Row> Rows for Last<A> {
    ghost use Rattle.gltf_json_record.specs.Table.{first_name};

    type Read = A::Read;

    ghost rows_kind = { λ rows names. A.row_kind rows.row (first_name names) };

    #[inline(always)]
    fn read(&self, alloc: Global, value: &Value, names: &[&'static str]) -> Result<A::Read, Error> {
        match names {
            [name, ..] => self.row.read(alloc, value, *name),
            [] => self.row.read(alloc, value, ""),
        }
    }
}

/// The members whose names are not among those that are left. It stands last.
#[derive(Clone, Copy)]
pub struct Others;

impl Rows for Others {
    ghost use Rattle.gltf_json_record.specs.Table.{others};

    type Read = Map<String, Value>;

    ghost rows_kind = { λ _ names. others names (λ x. x) };

    #[inline(always)]
    fn read(
        &self,
        _alloc: Global,
        value: &Value,
        names: &[&'static str],
    ) -> Result<Map<String, Value>, Error> {
        others(value, names)
    }
}

impl<A: Row, B: Rows> Rows for (A, B) {
    ghost use Rattle.gltf_json_record.specs.Table.{pair, first_name, other_names};

    type Read = (A::Read, B::Read);

    ghost rows_kind = { λ rows names.
        pair (A.row_kind rows.0 (first_name names)) (B.rows_kind rows.1 (other_names names)) };

    #[inline(always)]
    fn read(
        &self,
        alloc: Global,
        value: &Value,
        names: &[&'static str],
    ) -> Result<(A::Read, B::Read), Error> {
        match names {
            [name, rest @ ..] => {
                let first = self.0.read(alloc, value, *name)?;
                Ok((first, self.1.read(alloc, value, rest)?))
            }
            [] => {
                let first = self.0.read(alloc, value, "")?;
                Ok((first, self.1.read(alloc, value, names)?))
            }
        }
    }
}

impl<A: Row, B: Row, C: Rows> Rows for (A, B, C) {
    ghost use Rattle.gltf_json_record.specs.Table.{three, first_name, other_names};

    type Read = (A::Read, B::Read, C::Read);

    ghost rows_kind = { λ rows names.
        three
        (A.row_kind rows.0 (first_name names))
        (B.row_kind rows.1 (first_name (other_names names)))
        (C.rows_kind rows.2 (other_names (other_names names))) };

    #[inline(always)]
    fn read(
        &self,
        alloc: Global,
        value: &Value,
        names: &[&'static str],
    ) -> Result<Self::Read, Error> {
        let (a, (b, c)) = (self.0, (self.1, self.2)).read(alloc, value, names)?;
        Ok((a, b, c))
    }
}

impl<A: Row, B: Row, C: Row, D: Rows> Rows for (A, B, C, D) {
    ghost use Rattle.gltf_json_record.specs.Table.{four, first_name, other_names};

    type Read = (A::Read, B::Read, C::Read, D::Read);

    ghost rows_kind = { λ rows names.
        four
        (A.row_kind rows.0 (first_name names))
        (B.row_kind rows.1 (first_name (other_names names)))
        (C.row_kind rows.2 (first_name (other_names (other_names names))))
        (D.rows_kind rows.3 (other_names (other_names (other_names names)))) };

    #[inline(always)]
    fn read(
        &self,
        alloc: Global,
        value: &Value,
        names: &[&'static str],
    ) -> Result<Self::Read, Error> {
        let (a, (b, (c, d))) = (self.0, (self.1, (self.2, self.3))).read(alloc, value, names)?;
        Ok((a, b, c, d))
    }
}

impl<A: Row, B: Row, C: Row, D: Row, E: Rows> Rows for (A, B, C, D, E) {
    ghost use Rattle.gltf_json_record.specs.Table.{five, first_name, other_names};

    type Read = (A::Read, B::Read, C::Read, D::Read, E::Read);

    ghost rows_kind = { λ rows names.
        five
        (A.row_kind rows.0 (first_name names))
        (B.row_kind rows.1 (first_name (other_names names)))
        (C.row_kind rows.2 (first_name (other_names (other_names names))))
        (D.row_kind rows.3 (first_name (other_names (other_names (other_names names)))))
        (E.rows_kind rows.4 (other_names (other_names (other_names (other_names names))))) };

    #[inline(always)]
    fn read(
        &self,
        alloc: Global,
        value: &Value,
        names: &[&'static str],
    ) -> Result<Self::Read, Error> {
        let (a, (b, (c, (d, e)))) = (self.0, (self.1, (self.2, (self.3, self.4)))).read(
            alloc, value, names,
        )?;
        Ok((a, b, c, d, e))
    }
}

/// Reads the rows of a table, of an object alone.
#[inline(always)]
pub fn read_table<R: Rows>(
    alloc: Global,
    value: &Value,
    names: &[&'static str],
    rows: R,
) -> Result<R::Read, Error>
    ensures ok { IfOk result
        ((table (R.rows_kind rows (map (λ n. n.now) names.now))).is (view value.now)) }
    ensures err { IfErr result
        (Tells ((table (R.rows_kind rows (map (λ n. n.now) names.now))).fault (view value.now))) }
{
    object(alloc, value)?;
    rows.read(alloc, value, names)
}
