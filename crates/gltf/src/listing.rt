//! Items in a list that is reserved once.

ghost use Rattle.std.specs.Prelude.{◌≡◌, IfOk, IfErr, IfSome, length, vec_capacity};
ghost use Rattle.std.specs.Option.{option_map};
ghost use Rattle.gltf_data.specs.Iter.{counted_items};
ghost use Rattle.gltf_glb.specs.declared.error.Error.TheVariants.{Memory};
ghost use Rattle.gltf.specs.Primitives.{counted_indices};

use crate::accessor::{Item, Iter};
use crate::mesh::util::ReadIndices;
use crate::mesh::util::indices::{CastingIter, U32};
use gltf_glb::Result;
use std::alloc::{AllocError, Global};

/// Items whose number is known before any of them is read.
pub(crate) trait Counted: Drop {
    ghost use Rattle.std.specs.Prelude.{◌≡◌, List, length};
    ghost use Rattle.std.specs.Iterator.{YieldsFirst};

    /// What they are.
    type Item: Drop;

    /// Those that are left.
    ghost items_left: { Self → List Self.Item };

    /// How many are left. It reads none.
    fn left(&self) -> usize
        ensures { result ≡ length (items_left self.now) };

    /// The next one that is left.
    fn take(&mut self) -> Option<Self::Item>
        ensures { YieldsFirst items_left self.old result self.new };
}

impl<T: Item> Counted for Iter<'_, T> {
    type Item = T;

    ghost items_left = { λ items. (counted_items items).items };

    fn left(&self) -> usize {
        self.len()
    }

    fn take(&mut self) -> Option<T> {
        self.next()
    }
}

impl Counted for CastingIter<'_, U32> {
    type Item = u32;

    ghost items_left = { λ indices. (counted_indices indices).items };

    fn left(&self) -> usize {
        self.len()
    }

    fn take(&mut self) -> Option<u32> {
        self.next()
    }
}

/// All items that are left, where there are items, in a list that is reserved once.
pub(crate) fn listed<T: Item>(alloc: Global, items: Option<Iter<'_, T>>) -> Result<Option<Vec<T>>>
    ensures ok { IfOk result (λ list. option_map (λ l. l.items) list
        ≡ option_map (λ it. (counted_items it).items) items.entry) }
    ensures room { IfOk result (λ list. IfSome list (λ l. vec_capacity l ≡ length l.items)) }
    ensures refused { IfErr result (λ e. e ≡ Memory) }
{
    match items {
        Some(items) => Ok(Some(list_of(alloc, items)?)),
        None => Ok(None),
    }
}

/// The same of indices, each in four bytes.
pub(crate) fn listed_indices(
    alloc: Global,
    indices: Option<ReadIndices<'_>>,
) -> Result<Option<Vec<u32>>>
    ensures ok { IfOk result (λ list. option_map (λ l. l.items) list
        ≡ option_map (λ it. (counted_indices it).items) indices.entry) }
    ensures room { IfOk result (λ list. IfSome list (λ l. vec_capacity l ≡ length l.items)) }
    ensures refused { IfErr result (λ e. e ≡ Memory) }
{
    match indices {
        Some(indices) => Ok(Some(list_of(alloc, indices.into_u32())?)),
        None => Ok(None),
    }
}

/// All items that are left, in a list that is reserved once, before the first of them is read.
fn list_of<C: Counted>(alloc: Global, mut items: C) -> Result<Vec<C::Item>, AllocError>
    ensures ok { IfOk result (λ list. list.items ≡ C.items_left items) }
    ensures room { IfOk result (λ list. vec_capacity list ≡ length list.items) }
{
    let mut list = Vec::with_capacity(alloc, items.left())?;
    while let Some(item) = items.take() {
        list.push_reserved(item);
    }
    Ok(list)
}
