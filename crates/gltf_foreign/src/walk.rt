//! The members of extension objects that name a buffer or a file.
ghost use Rattle.std.specs.Prelude.{◌≡◌, ◌++◌, IfOk, OnOk};
ghost use Rattle.serde_json.specs.View.{view, items_view, members_view};
ghost use Rattle.gltf_foreign.specs.Place.{places_view};
ghost use Rattle.gltf_foreign.specs.Walk.{found, found_items, found_members, own, names_one};
ghost use Rattle.gltf_foreign.specs.Walk.{is_naming, next, next_in, is_null};

use crate::place::{At, Place, add_member, add_under};
use serde_json::{Map, Value};
use std::alloc::{AllocError, Global};

/// Where a value stands.
#[derive(Clone, Copy, Debug)]
pub(crate) enum Scope {
    /// In no extension object.
    Outside,
    /// It is a member `extensions`: its members are the objects of extensions.
    Extensions,
    /// It is the object of an extension, or stands in one.
    Inside,
}

/// The places of all such members in a value.
#[cycle(found)]
pub(crate) fn found(alloc: Global, value: &Value, scope: Scope) -> Result<Vec<Place>, AllocError>
    ensures { IfOk result (λ all. places_view all.items ≡ found scope (view value.now)) }
{
    match value {
        Value::Array(elements) => in_elements(alloc, elements, next_in(scope)),
        Value::Object(members) => in_members(alloc, members, scope),
        _ => Ok(Vec::new(alloc)),
    }
}

/// Those in the elements of an array.
#[cycle(found)]
fn in_elements(alloc: Global, elements: &Vec<Value>, scope: Scope) -> Result<Vec<Place>, AllocError>
    ensures { IfOk result (λ all. places_view all.items
        ≡ found_items scope 0 (items_view elements.now.items)) }
{
    let mut all = Vec::new(alloc);
    for (i, one) in elements.iter().enumerate() {
        let more = found(alloc, one, scope)?;
        add_under(alloc, &mut all, more, At::Index(i))?;
    }
    Ok(all)
}

/// Those in the members of an object, and these members.
#[cycle(found)]
fn in_members(
    alloc: Global,
    members: &Map<String, Value>,
    scope: Scope,
) -> Result<Vec<Place>, AllocError>
    ensures { IfOk result (λ all. places_view all.items
        ≡ found_members scope (members_view members.now.entries)) }
{
    let mut all = Vec::new(alloc);
    for (name, member) in members.iter() {
        add_own(alloc, &mut all, scope, name.as_str(), member)?;
        let more = found(alloc, member, next(scope, name.as_str()))?;
        add_under(alloc, &mut all, more, At::Name(name.as_str()))?;
    }
    Ok(all)
}

/// Adds the place of a member, where it names a buffer or a file.
fn add_own(
    alloc: Global,
    all: &mut Vec<Place>,
    scope: Scope,
    name: &str,
    member: &Value,
) -> Result<(), AllocError>
    ensures { OnOk result (places_view all.new.items
        ≡ places_view all.old.items ++ own scope name.now (view member.now)) }
{
    if names_one(scope, name, member) {
        add_member(alloc, all, name)?;
    }
    Ok(())
}

/// Whether a member of what stands there names a buffer or a file.
fn names_one(scope: Scope, name: &str, member: &Value) -> bool
    ensures { result ≡ names_one scope name.now (view member.now) }
{
    match scope {
        Scope::Inside => is_naming(name) && !is_null(member),
        _ => false,
    }
}

/// Whether a value is null.
fn is_null(value: &Value) -> bool
    ensures { result ≡ is_null (view value.now) }
{
    matches!(value, Value::Null)
}

/// Whether a member of this name names a buffer or a file.
fn is_naming(name: &str) -> bool
    ensures { result ≡ is_naming name.now }
{
    match name {
        "buffer" | "buffers" | "uri" | "uris" => true,
        _ => false,
    }
}

/// Where the member of this name stands.
fn next(scope: Scope, name: &str) -> Scope
    ensures { result ≡ next scope name.now }
{
    if name == "extensions" {
        return Scope::Extensions;
    }
    next_in(scope)
}

/// Where any other part stands.
fn next_in(scope: Scope) -> Scope
    ensures { result ≡ next_in scope }
{
    match scope {
        Scope::Outside => Scope::Outside,
        _ => Scope::Inside,
    }
}
