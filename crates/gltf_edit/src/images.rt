//! The JSON value of a document whose images go into buffers of their own.
ghost use Rattle.std.specs.Prelude.{◌≡◌, ◌<◌, ◌+◌, ◌^◌, ◌∷◌, [], IfOk, OnOk, IfSome, option_map};
ghost use Rattle.std.specs.Prelude.{length, drop, option_copied};
ghost use Rattle.serde_json.specs.View.{view, items_view};
ghost use Rattle.serde_json.specs.Events.{items_len};
ghost use Rattle.gltf_edit.specs.Embedded.{embedded, images_after, list_after, items_at};
ghost use Rattle.gltf_edit.specs.Embedded.{with_items};
ghost use Rattle.gltf_edit.specs.Embedded.{buffers_of, views_of, sized, view_on, pictured_in};
ghost use Rattle.gltf_edit.specs.Embedded.{first, shown, with_picture, seats, sole, has_both};

use crate::members::{size_at, with_member, with_some, without_member};
use crate::picture::Picture;
use serde_json::{Map, Value, put};
use std::alloc::{AllocError, Global};

/// The value of a document in which each image that has a picture here, by index, goes into a
/// buffer and a view of its own (glTF 2.0, sections 3.8.3, 5.10, 5.11 and 5.18).
///
/// These stand behind the document's own, in the order of the images. Such an image has no URI any
/// more: it names its view, with its media type. Where there are pictures, an image that has none
/// and names a view has no URI beside it: it is what the view holds. All else stays as it is.
pub fn embedded(
    alloc: Global,
    document: Value,
    pictures: &[Option<Picture>],
) -> Result<Value, AllocError>
    ensures { IfOk result (λ v. view v ≡ embedded pictures.now (view document)) }
{
    let images = images_after(alloc, &document, pictures)?;
    let views = new_views(alloc, items_len_at(&document, "buffers"), pictures)?;
    let views = list_after(alloc, &document, "bufferViews", views)?;
    let buffers = new_buffers(alloc, pictures)?;
    let buffers = list_after(alloc, &document, "buffers", buffers)?;
    let document = with_some(alloc, document, "buffers", buffers)?;
    let document = with_some(alloc, document, "bufferViews", views)?;
    with_some(alloc, document, "images", images)
}

/// The number of elements of a list, none where it is absent.
fn items_len_at(document: &Value, name: &str) -> usize
    ensures is { result ≡ items_len (items_at name.now (view document.now)) }
    ensures small { result < 2 ^ 63 }
{
    match document.get(name) {
        Some(Value::Array(list)) => list.len(),
        _ => 0,
    }
}

/// A copy of the elements of a list.
fn items_at(alloc: Global, document: &Value, name: &str) -> Result<Vec<Value>, AllocError>
    ensures { IfOk result (λ list. items_view list.items
        ≡ items_at name.now (view document.now)) }
{
    let Some(list) = document.get(name) else {
        return Ok(Vec::new(alloc));
    };
    match list.clone()? {
        Value::Array(list) => Ok(list),
        _ => Ok(Vec::new(alloc)),
    }
}

/// A list of the document with more at its end, where there is more.
fn list_after(
    alloc: Global,
    document: &Value,
    name: &str,
    more: Vec<Value>,
) -> Result<Option<Value>, AllocError>
    ensures { IfOk result (λ o. option_map view o
        ≡ list_after name.now (items_view more.items) (view document.now)) }
{
    if more.is_empty() {
        return Ok(None);
    }
    let mut more = more;
    let mut list = items_at(alloc, document, name)?;
    list.append(&mut more)?;
    Ok(Some(Value::Array(list)))
}

/// A buffer for each picture.
fn new_buffers(alloc: Global, pictures: &[Option<Picture>]) -> Result<Vec<Value>, AllocError>
    ensures { IfOk result (λ all. items_view all.items ≡ buffers_of pictures.now) }
{
    let mut all = Vec::new(alloc);
    for picture in pictures {
        add_buffer(alloc, &mut all, picture)?;
    }
    Ok(all)
}

/// One more buffer, where there is a picture.
fn add_buffer(
    alloc: Global,
    all: &mut Vec<Value>,
    picture: &Option<Picture>,
) -> Result<(), AllocError>
    ensures { OnOk result (items_view all.new.items
        ≡ with_items (items_view all.old.items) (buffers_of (picture.now ∷ []))) }
{
    if let Some(picture) = picture {
        all.push(sized(alloc, picture.length)?)?;
    }
    Ok(())
}

/// A buffer of so many bytes.
fn sized(alloc: Global, length: usize) -> Result<Value, AllocError>
    ensures { IfOk result (λ v. view v ≡ sized length) }
{
    let mut members = Map::new(alloc);
    put(
        &mut members,
        alloc,
        "byteLength",
        Value::from(length as u64),
    )?;
    Ok(Value::Object(members))
}

/// A view for each picture, where the first new buffer has this index.
fn new_views(
    alloc: Global,
    first: usize,
    pictures: &[Option<Picture>],
) -> Result<Vec<Value>, AllocError>
    requires { first < 2 ^ 63 }
    ensures { IfOk result (λ all. items_view all.items ≡ views_of first pictures.now) }
{
    let mut all = Vec::new(alloc);
    for picture in pictures {
        add_view(alloc, &mut all, first, picture)?;
    }
    Ok(all)
}

/// One more view, where there is a picture. There are as many views before it as buffers.
fn add_view(
    alloc: Global,
    all: &mut Vec<Value>,
    first: usize,
    picture: &Option<Picture>,
) -> Result<(), AllocError>
    requires { first < 2 ^ 63 }
    ensures { OnOk result (items_view all.new.items
        ≡ with_items (items_view all.old.items)
        (views_of (first + length all.old.items) (picture.now ∷ []))) }
{
    if let Some(picture) = picture {
        let buffer = first + all.len();
        all.push(view_on(alloc, buffer, picture.length)?)?;
    }
    Ok(())
}

/// A view of a whole buffer.
fn view_on(alloc: Global, buffer: usize, length: usize) -> Result<Value, AllocError>
    ensures { IfOk result (λ v. view v ≡ view_on buffer length) }
{
    let mut members = Map::new(alloc);
    put(&mut members, alloc, "buffer", Value::from(buffer as u64))?;
    put(
        &mut members,
        alloc,
        "byteLength",
        Value::from(length as u64),
    )?;
    Ok(Value::Object(members))
}

/// The images with their pictures, where there are pictures and images.
fn images_after(
    alloc: Global,
    document: &Value,
    pictures: &[Option<Picture>],
) -> Result<Option<Value>, AllocError>
    ensures { IfOk result (λ o. option_map view o
        ≡ images_after pictures.now (view document.now)) }
{
    if pictures.is_empty() {
        return Ok(None);
    }
    let first = items_len_at(document, "bufferViews");
    match document.get("images") {
        Some(images) => Ok(Some(pictured(alloc, images, first, pictures)?)),
        None => Ok(None),
    }
}

/// The images with their pictures, where the first new view has this index.
fn pictured(
    alloc: Global,
    images: &Value,
    first: usize,
    pictures: &[Option<Picture>],
) -> Result<Value, AllocError>
    requires { first < 2 ^ 63 }
    ensures { IfOk result (λ v. view v ≡ pictured_in first pictures.now (view images.now)) }
{
    let Value::Array(list) = images else {
        return images.clone();
    };
    let mut all = Vec::with_capacity(alloc, list.len())?;
    let mut next = first;
    for (i, image) in list.iter().enumerate() {
        let picture = picture_at(pictures, i);
        all.push(shown(alloc, image, next, picture)?)?;
        next += seats(picture);
    }
    Ok(Value::Array(all))
}

/// The picture of an image.
fn picture_at(pictures: &[Option<Picture>], image: usize) -> Option<&Picture>
    ensures { option_copied result ≡ first (drop image pictures.now) }
{
    match pictures.get(image) {
        Some(Some(picture)) => Some(picture),
        _ => None,
    }
}

/// How many views an image takes.
fn seats(picture: Option<&Picture>) -> usize
    ensures { result ≡ seats (option_copied picture.entry) }
{
    match picture {
        Some(_) => 1,
        None => 0,
    }
}

/// An image with its picture in the view of this index, where it has one.
fn shown(
    alloc: Global,
    image: &Value,
    index: usize,
    picture: Option<&Picture>,
) -> Result<Value, AllocError>
    ensures { IfOk result (λ v. view v
        ≡ shown index (option_copied picture.entry) (view image.now)) }
{
    match picture {
        Some(picture) => with_picture(alloc, image, index, picture),
        None => Ok(sole(image.clone()?)),
    }
}

/// An image that names a view, without a URI beside it: it is what the view holds.
fn sole(image: Value) -> Value
    ensures { view result ≡ sole (view image) }
{
    if has_both(&image) {
        without_member(image, "uri")
    } else {
        image
    }
}

/// Whether an image has a URI beside the view that it names.
fn has_both(image: &Value) -> bool
    ensures { result ≡ has_both (view image.now) }
{
    image.get("uri").and_then(Value::as_str).is_some() && size_at(image, "bufferView").is_some()
}

/// An image whose bytes are in a view.
fn with_picture(
    alloc: Global,
    image: &Value,
    index: usize,
    picture: &Picture,
) -> Result<Value, AllocError>
    ensures { IfOk result (λ v. view v ≡ with_picture index picture.now (view image.now)) }
{
    let image = without_member(image.clone()?, "uri");
    let image = with_member(alloc, image, "bufferView", Value::from(index as u64))?;
    let media = picture.media.clone()?;
    with_member(alloc, image, "mimeType", Value::String(media))
}
