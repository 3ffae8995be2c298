//! The JSON value of a document whose buffers become one.
ghost use Rattle.std.specs.Prelude.{◌≡◌, IfOk, OnOk, IfErr, MatchOption, option_map};
ghost use Rattle.serde_json.specs.View.{view};
ghost use Rattle.gltf_edit.specs.Bundled.{bundled, moved, relocated, relocated_extensions};
ghost use Rattle.gltf_edit.specs.Bundled.{relocated_at, member_at, LiesAt};
ghost use Rattle.gltf_edit.specs.Bundled.{one_buffer, each_item, span_of};
ghost use Rattle.gltf_edit.specs.Bundled.{Lies, ExtensionLies, IsPlaced, EachPlaced, ArePlaced};
ghost use Rattle.gltf_edit.specs.Faults.{NamesStray, NamesStrayOf};

use crate::fault::Fault;
use crate::members::{size_at, with_member, with_some};
use crate::span::Span;
use serde_json::{Map, Value, put};
use std::alloc::{AllocError, Global};

/// The value of a document whose buffers become one of `total` bytes, where those of each stand at
/// its span (glTF 2.0, sections 5.10 and 5.11).
///
/// The list of buffers becomes one without a URI; it stays where it is empty or absent. Each view
/// names that buffer, at its offset after the place of its own; so does what
/// `EXT_meshopt_compression` and `KHR_meshopt_compression` say of it, where it is not null. All
/// else stays as it is. The names and extras of the buffers are not kept.
///
/// [`Fault::Outside`] names a view that does not lie in its buffer, the first.
pub fn bundled(alloc: Global, document: Value, spans: &[Span], total: u32) -> Result<Value, Fault>
    ensures value { IfOk result (λ v. view v ≡ bundled spans.now total (view document)) }
    ensures placed { OnOk result (ArePlaced spans.now (view document)) }
    ensures refused { IfErr result (NamesStray spans.now (view document)) }
{
    let views = match document.get("bufferViews") {
        Some(views) => Some(moved_views(alloc, views, spans)?),
        None => None,
    };
    let buffers = match document.get("buffers") {
        Some(buffers) => Some(one_buffer(alloc, buffers, total)?),
        None => None,
    };
    let document = with_some(alloc, document, "bufferViews", views)?;
    Ok(with_some(alloc, document, "buffers", buffers)?)
}

/// The list of one buffer of so many bytes, in place of a list of some.
fn one_buffer(alloc: Global, buffers: &Value, total: u32) -> Result<Value, AllocError>
    ensures { IfOk result (λ v. view v ≡ one_buffer total (view buffers.now)) }
{
    let Value::Array(list) = buffers else {
        return buffers.clone();
    };
    let mut one = Vec::new(alloc);
    if !list.is_empty() {
        let mut buffer = Map::new(alloc);
        put(&mut buffer, alloc, "byteLength", Value::from(total))?;
        one.push(Value::Object(buffer))?;
    }
    Ok(Value::Array(one))
}

/// Each view in the one buffer, with its extensions.
fn moved_views(alloc: Global, views: &Value, spans: &[Span]) -> Result<Value, Fault>
    ensures value { IfOk result (λ v. view v ≡ each_item (moved spans.now) (view views.now)) }
    ensures placed { OnOk result (EachPlaced spans.now (view views.now)) }
    ensures refused { IfErr result (NamesStrayOf spans.now (view views.now)) }
{
    let Value::Array(list) = views else {
        return Ok(views.clone()?);
    };
    let mut all = Vec::with_capacity(alloc, list.len())?;
    for (i, one) in list.iter().enumerate() {
        match moved(alloc, one, spans)? {
            Some(one) => all.push(one)?,
            None => return Err(Fault::Outside(i)),
        }
    }
    Ok(Value::Array(all))
}

/// A view in the one buffer, with its extensions. None where it does not lie in its buffer, or what
/// is compressed of it does not.
fn moved(alloc: Global, one: &Value, spans: &[Span]) -> Result<Option<Value>, AllocError>
    ensures { IfOk result (λ o. MatchOption o (IsPlaced spans.now (view one.now) → ⊥)
        (λ v. (view v ≡ moved spans.now (view one.now)) × IsPlaced spans.now (view one.now))) }
{
    let Some(alone) = relocated(alloc, one, spans)? else {
        return Ok(None);
    };
    let Some(extensions) = one.get("extensions") else {
        return Ok(Some(alone));
    };
    let Some(extensions) = relocated_extensions(alloc, extensions, spans)? else {
        return Ok(None);
    };
    Ok(Some(with_member(alloc, alone, "extensions", extensions)?))
}

/// The extensions of a view in the one buffer. None where what is compressed does not lie in its
/// buffer.
fn relocated_extensions(
    alloc: Global,
    extensions: &Value,
    spans: &[Span],
) -> Result<Option<Value>, AllocError>
    ensures { IfOk result (λ o. MatchOption o
        (ExtensionLies spans.now (view extensions.now) → ⊥)
        (λ v. (view v ≡ relocated_extensions spans.now (view extensions.now))
        × ExtensionLies spans.now (view extensions.now))) }
{
    let Some(once) = relocated_at(alloc, extensions, "EXT_meshopt_compression", spans)? else {
        return Ok(None);
    };
    relocated_at(alloc, &once, "KHR_meshopt_compression", spans)
}

/// The extensions of a view, with what one of them says in the one buffer. None where this does not
/// lie in its buffer.
fn relocated_at(
    alloc: Global,
    extensions: &Value,
    name: &str,
    spans: &[Span],
) -> Result<Option<Value>, AllocError>
    ensures { IfOk result (λ o. MatchOption o
        (LiesAt name.now spans.now (view extensions.now) → ⊥)
        (λ v. (view v ≡ relocated_at name.now spans.now (view extensions.now))
        × LiesAt name.now spans.now (view extensions.now))) }
{
    let Some(said) = member_at(extensions, name) else {
        return Ok(Some(extensions.clone()?));
    };
    let Some(said) = relocated(alloc, said, spans)? else {
        return Ok(None);
    };
    let extensions = extensions.clone()?;
    Ok(Some(with_some(alloc, extensions, name, Some(said))?))
}

/// A member that is there, and not null.
fn member_at<'a>(value: &'a Value, name: &str) -> Option<&'a Value>
    ensures { option_map (λ v. view v.now) result ≡ member_at name.now (view value.now) }
{
    match value.get(name) {
        Some(Value::Null) => None,
        member => member,
    }
}

/// What names a buffer as a view does, in the one buffer. None where it does not lie in its buffer.
fn relocated(alloc: Global, one: &Value, spans: &[Span]) -> Result<Option<Value>, AllocError>
    ensures { IfOk result (λ o. MatchOption o (Lies spans.now (view one.now) → ⊥)
        (λ v. (view v ≡ relocated spans.now (view one.now)) × Lies spans.now (view one.now))) }
{
    let Some(span) = span_of(one, spans) else {
        return Ok(None);
    };
    let offset = size_at(one, "byteOffset").unwrap_or(0);
    let length = size_at(one, "byteLength").unwrap_or(0);
    let room = u64::from(span.length);
    if offset > room || length > room - offset {
        return Ok(None);
    }
    let place = u64::from(span.place) + offset;
    let moved = with_member(alloc, one.clone()?, "buffer", Value::from(0_u64))?;
    let moved = with_member(alloc, moved, "byteOffset", Value::from(place))?;
    Ok(Some(moved))
}

/// Where the buffer stands that a view names.
fn span_of(one: &Value, spans: &[Span]) -> Option<Span>
    ensures { result ≡ span_of spans.now (view one.now) }
{
    let index = size_at(one, "buffer")?;
    spans.get(index as usize).copied()
}
