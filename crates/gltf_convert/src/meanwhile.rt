//! The text that stands in the place of an earlier one while its files take their names.
use crate::instead::{buffers_of, items_of};
use gltf_detach::Part;
use gltf_edit::with_some;
use gltf_put::MEANWHILE;
use serde_json::Value;
use std::alloc::{AllocError, Global};

/// The text of a document whose files have names with `.next` behind them: those of its buffers,
/// and those that images have, by index.
pub(crate) fn text_meanwhile(
    alloc: Global,
    document: &Value,
    images: &[Option<Part>],
) -> Result<String, AllocError> {
    let buffers = buffers_meanwhile(alloc, buffers_of(document))?;
    let images = images_meanwhile(alloc, items_of(document, "images"), images)?;
    let text = with_some(alloc, document.clone()?, "buffers", buffers)?;
    with_some(alloc, text, "images", images)?.to_string(alloc)
}

/// These buffers, where there are some.
fn buffers_meanwhile(alloc: Global, buffers: &[Value]) -> Result<Option<Value>, AllocError> {
    let mut all = Vec::with_capacity(alloc, buffers.len())?;
    for buffer in buffers {
        all.push(meanwhile(alloc, buffer)?)?;
    }
    Ok(list_of(all))
}

/// These images, where there are some. One without a file stays as it is.
fn images_meanwhile(
    alloc: Global,
    images: &[Value],
    parts: &[Option<Part>],
) -> Result<Option<Value>, AllocError> {
    let mut all = Vec::with_capacity(alloc, images.len())?;
    for (index, image) in images.iter().enumerate() {
        let image = match parts.get(index) {
            Some(Some(_)) => meanwhile(alloc, image)?,
            _ => image.clone()?,
        };
        all.push(image)?;
    }
    Ok(list_of(all))
}

/// A list, where it is not empty: a document has no empty one.
fn list_of(items: Vec<Value>) -> Option<Value> {
    if items.is_empty() {
        return None;
    }
    Some(Value::Array(items))
}

/// A buffer or an image whose file has the other name.
fn meanwhile(alloc: Global, one: &Value) -> Result<Value, AllocError> {
    let Some(uri) = one.get("uri").and_then(Value::as_str) else {
        return one.clone();
    };
    let mut other = String::from_str(alloc, uri)?;
    other.push_str(MEANWHILE)?;
    with_some(alloc, one.clone()?, "uri", Some(Value::String(other)))
}
