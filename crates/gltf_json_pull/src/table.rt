//! Records, read by their tables from the tokens of a text.
ghost use Rattle.std.specs.Prelude.{◌≡◌, ◌∷◌, ◌≤◌, map, true, Some, IfSome};
ghost use Rattle.json.specs.Reads.{token_of};
ghost use Rattle.serde_json.specs.Data.{Data};
ghost use Rattle.serde_json.specs.Read.{max_depth};
ghost use Rattle.gltf_json_record.specs.Table.{table};
ghost use Rattle.gltf_json_tokens.specs.Tokens.{data_at};
ghost use Rattle.gltf_json_pull.specs.Pulls.{IsPulled, Takes, are_distinct};

use crate::rows::PullRows;
use gltf_json_tokens::build::build;
use json::{Reader, Token};
use std::alloc::Global;

/// The rows of a table, read from the object that begins with the token `first`. The last of
/// several members of one name is read. None as in `FromToken`.
#[inline(always)]
pub fn pull_table<R: PullRows>(
    alloc: Global,
    first: Token<'_>,
    rest: &mut Reader<'_>,
    depth: usize,
    names: &[&'static str],
    rows: R,
) -> Option<R::Read>
    requires distinct { are_distinct (map (λ n. n.now) names.now) ≡ true }
    requires deep { depth ≤ max_depth }
    ensures { IfSome result
        (λ x. IsPulled (table (R.rows_kind rows (map (λ n. n.now) names.now))) depth
        (token_of first.entry ∷ rest.old) x rest.new) }
{
    let Token::BeginObject = first else {
        return None;
    };
    if depth == 0 {
        return None;
    }
    let mut found = rows.nothing();
    'members: loop {
        match rest.next_key() {
            Ok(Some(name)) => take(alloc, &rows, &mut found, name, names, rest, depth - 1)?,
            Ok(None) => {
                let read = rows.made(alloc, found)?;
                return Some(read);
            }
            Err(_) => return None,
        }
    }
}

// Takes the member of a name, whether a row reads it or none does.
#[inline(always)]
fn take<R: PullRows>(
    alloc: Global,
    rows: &R,
    found: &mut R::Found,
    name: &str,
    names: &[&'static str],
    rest: &mut Reader<'_>,
    depth: usize,
) -> Option<()>
    requires distinct { are_distinct (map (λ n. n.now) names.now) ≡ true }
    requires deep { depth ≤ max_depth }
    ensures { IfSome result
        (λ _. Takes (R.found_kind rows.now (map (λ n. n.now) names.now)) name.now depth
        found.old rest.old found.new rest.new) }
{
    if name.is_empty() {
        return None;
    }
    let took = rows.step(alloc, found, name, names, rest, depth)?;
    if took {
        return Some(());
    }
    pass(alloc, rest, depth)?;
    Some(())
}

// Passes over a value.
#[cold]
#[inline(never)]
fn pass(alloc: Global, rest: &mut Reader<'_>, depth: usize) -> Option<()>
    requires { depth ≤ max_depth }
    ensures { IfSome result
        (λ _. (d : Data) × (data_at depth rest.old ≡ Some (d, rest.new))) }
{
    let first = rest.next()?;
    let Ok(Some(_)) = build(alloc, first, rest, depth) else {
        return None;
    };
    Some(())
}
