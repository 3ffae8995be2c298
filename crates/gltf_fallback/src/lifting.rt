//! Documents in which views are what they are compressed to.
ghost use Rattle.std.specs.Prelude.{◌≡◌, IfOk, option_map};
ghost use Rattle.serde_json.specs.Find.{get};
ghost use Rattle.serde_json.specs.View.{view};
ghost use Rattle.gltf_fallback.specs.Lifted.{lifted, lifted_view, lifted_buffer, kept_view, packed};
ghost use Rattle.gltf_fallback.specs.Lifted.{on_packed, stand_in};

use crate::OWN;
use crate::bare::{is_bare, said_at, seat_of, seats_in};
use crate::edit::{Edit, edit_list};
use gltf_edit::{size_at, with_some};
use serde_json::{Map, Value, put};
use std::alloc::{AllocError, Global};

/// The document in which each view whose buffer has no bytes is what it is compressed to, where it
/// is compressed, and in which a buffer of no byte stands for each buffer that has none. What they
/// were is kept in a member of theirs.
///
/// Where buffers become one, `behind` says that those without bytes then stand behind that one.
pub fn lifted(alloc: Global, document: Value, behind: bool) -> Result<Value, AllocError>
    ensures { IfOk result (λ v. view v ≡ lifted behind (view document)) }
{
    let seats = seats_in(alloc, &document, behind)?;
    let views = Views {
        seats: seats.as_slice(),
    };
    let document = edit_list(alloc, document, "buffers", &Buffers)?;
    edit_list(alloc, document, "bufferViews", &views)
}

/// Buffers.
#[derive(Drop)]
struct Buffers;

impl Edit for Buffers {
    ghost edited = { λ _. lifted_buffer };

    fn edit(&self, alloc: Global, one: &Value) -> Result<Value, AllocError> {
        if is_bare(one) {
            stand_in(alloc, one)
        } else {
            one.clone()
        }
    }
}

/// A buffer of no byte, which keeps the buffer for which it stands.
fn stand_in(alloc: Global, one: &Value) -> Result<Value, AllocError>
    ensures { IfOk result (λ v. view v ≡ stand_in (view one.now)) }
{
    let mut members = Map::new(alloc);
    put(&mut members, alloc, "byteLength", Value::from(0_u64))?;
    put(&mut members, alloc, OWN, one.clone()?)?;
    let uri = String::from_str(alloc, "data:;base64,")?;
    put(&mut members, alloc, "uri", Value::String(uri))?;
    Ok(Value::Object(members))
}

/// Views, with the index of each buffer that has no bytes.
#[derive(Drop)]
struct Views<'a> {
    seats: &'a [Option<u64>],
}

impl<'a> Edit for Views<'a> {
    ghost edited = { λ views. lifted_view views.seats.now };

    fn edit(&self, alloc: Global, one: &Value) -> Result<Value, AllocError> {
        let Some(seat) = seat_of(one, self.seats) else {
            return one.clone();
        };
        match packed(one) {
            Some(said) => kept_view(alloc, one, seat, said),
            None => one.clone(),
        }
    }
}

/// What a view is compressed to.
fn packed(one: &Value) -> Option<&Value>
    ensures { option_map (λ v. view v.now) result ≡ packed (view one.now) }
{
    match said_at(one, "EXT_meshopt_compression") {
        Some(said) => Some(said),
        None => said_at(one, "KHR_meshopt_compression"),
    }
}

/// A view of that, which keeps the view that it was, with this index of its buffer.
fn kept_view(alloc: Global, one: &Value, seat: u64, said: &Value) -> Result<Value, AllocError>
    ensures { IfOk result (λ v. view v ≡ kept_view seat (view said.now) (view one.now)) }
{
    let kept = with_some(alloc, one.clone()?, "buffer", Some(Value::from(seat)))?;
    let view = on_packed(alloc, one, said)?;
    with_some(alloc, view, OWN, Some(kept))
}

fn on_packed(alloc: Global, one: &Value, said: &Value) -> Result<Value, AllocError>
    ensures { IfOk result (λ v. view v ≡ on_packed (view said.now) (view one.now)) }
{
    let buffer = member(said, "buffer")?;
    let length = member(said, "byteLength")?;
    let offset = Value::from(size_at(said, "byteOffset").unwrap_or(0));
    let view = with_some(alloc, one.clone()?, "buffer", buffer)?;
    let view = with_some(alloc, view, "byteOffset", Some(offset))?;
    with_some(alloc, view, "byteLength", length)
}

/// A copy of a member.
fn member(of: &Value, name: &str) -> Result<Option<Value>, AllocError>
    ensures { IfOk result (λ o. option_map view o ≡ get name.now (view of.now)) }
{
    match of.get(name) {
        Some(member) => Ok(Some(member.clone()?)),
        None => Ok(None),
    }
}
