//! How many bytes stand behind the buffers of a document.
ghost use Rattle.std.specs.Prelude.{◌≡◌, ◌||◌, ℕ, List, [], IfOk, OnOk, map, not, false, bytes_eq};
ghost use Rattle.std.specs.Prelude.{get_or, length};
ghost use Rattle.gltf_names.specs.Named.{Named, named};
ghost use Rattle.gltf_buffers.specs.Buffers.{source_of, name_at};
ghost use Rattle.gltf_shared.specs.Lengths.{capped, has, is_in, is_own, is_same, no_names, own_len};
ghost use Rattle.gltf_shared.specs.Lengths.{shared_len, with_name};
ghost use Rattle.gltf_shared.specs.Shown.{bytes_of_each};

use crate::reading::uri_of;
use gltf_buffers::Data;
use gltf_buffers::uri::Uri;
use gltf_json::buffer;
use gltf_names::Name;
use std::alloc::{AllocError, Global};
use std::collections::BTreeMap;
use std::rc::Rc;

/// Names that buffers led to.
#[derive(Drop)]
pub(crate) struct Seen {
    files: BTreeMap<String, ()>,
    relatives: BTreeMap<String, ()>,
}

impl Seen {
    /// None yet. Takes no memory.
    fn new(alloc: Global) -> Seen
        ensures { (name : Named) → has result name ≡ false }
    {
        Seen {
            files: BTreeMap::new(alloc),
            relatives: BTreeMap::new(alloc),
        }
    }

    /// Whether a name is a new one. It is one of these then.
    fn add(&mut self, alloc: Global, name: Name<'_>) -> Result<bool, AllocError>
        ensures new { IfOk result (λ new. new ≡ not (has self.old (named name.entry))) }
        ensures added { OnOk result ((other : Named) → has self.new other
            ≡ (is_same other (named name.entry) || has self.old other)) }
    {
        match name {
            Name::File(text) => add(alloc, &mut self.files, text),
            Name::Relative(text) => add(alloc, &mut self.relatives, text),
        }
    }
}

/// Whether a text is a new one. It is one of these then.
fn add(alloc: Global, texts: &mut BTreeMap<String, ()>, text: &str) -> Result<bool, AllocError>
    ensures new { IfOk result (λ new. new ≡ not (is_in texts.old text.now)) }
    ensures added { OnOk result ((other : List ℕ) → is_in texts.new other
        ≡ (bytes_eq other text.now || is_in texts.old other)) }
{
    if texts.get(text).is_some() {
        return Ok(false);
    }
    let key = String::from_str(alloc, text)?;
    texts.insert(key, ())?;
    Ok(true)
}

/// Whether a buffer has bytes of its own: no buffer before leads to its name.
fn has_own(alloc: Global, buffer: &buffer::Buffer, seen: &mut Seen) -> Result<bool, AllocError>
    ensures own { IfOk result
        (λ own. own ≡ is_own (has seen.old) (name_at (source_of buffer.now).uri)) }
    ensures added { OnOk result ((other : Named) → has seen.new other
        ≡ with_name (name_at (source_of buffer.now).uri) (has seen.old) other) }
{
    let Some(uri) = uri_of(buffer) else {
        return Ok(true);
    };
    match Uri::parse(alloc, uri)? {
        Uri::File(path) => seen.add(alloc, Name::File(path)),
        Uri::Relative(path) => seen.add(alloc, Name::Relative(path.as_str())),
        Uri::Data(_) | Uri::Unsupported => Ok(true),
    }
}

fn len_at(all: &[Rc<Data>], index: usize) -> u64
    ensures { result ≡ length (get_or (bytes_of_each all.now) index []) }
{
    match all.get(index) {
        None => 0,
        Some(data) => data.0.len() as u64,
    }
}

/// How many bytes of its own the buffer at an index has.
fn own_len(
    alloc: Global,
    index: usize,
    buffer: &buffer::Buffer,
    all: &[Rc<Data>],
    seen: &mut Seen,
) -> Result<u64, AllocError>
    ensures own { IfOk result (λ len. len
        ≡ own_len (has seen.old) index (source_of buffer.now) (bytes_of_each all.now)) }
    ensures added { OnOk result ((other : Named) → has seen.new other
        ≡ with_name (name_at (source_of buffer.now).uri) (has seen.old) other) }
{
    if has_own(alloc, buffer, seen)? {
        Ok(len_at(all, index))
    } else {
        Ok(0)
    }
}

/// How many bytes the buffers of a document have together, as far as 64 bits hold their number.
/// Those that lead to one name have one another's, which count once. Fails where there is no memory
/// for the names.
pub fn shared_len(
    alloc: Global,
    buffers: &[buffer::Buffer],
    all: &[Rc<Data>],
) -> Result<u64, AllocError>
    ensures { IfOk result (λ len. len ≡ capped (shared_len no_names 0
        (map source_of buffers.now) (bytes_of_each all.now))) }
{
    let mut seen = Seen::new(alloc);
    let mut len = 0u64;
    for (i, buffer) in buffers.iter().enumerate() {
        len = len.saturating_add(own_len(alloc, i, buffer, all, &mut seen)?);
    }
    Ok(len)
}
