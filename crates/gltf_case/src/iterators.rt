//! Iterators over bytes that stand in a case.
use crate::asked::Asked;
use crate::by_type;
use crate::bytes::bytes_of;
use crate::shown::Written;
use crate::steps::{steps_of, write_walk};
use gltf::accessor::{Item, ItemIter, Iter, SparseIndicesIter, SparseIter, Step};
use std::alloc::Global;
use std::fmt::Debug;

/// Writes what a walk over plain items answers: `plain TYPE STRIDE STEP.. : BYTES`.
pub fn plain(alloc: Global, asked: Asked<'_>, line: &mut String) -> Written {
    let bytes = bytes_of(alloc, asked.given)?;
    plain_by(alloc, asked, &bytes, &steps_of(alloc, asked.words)?, line)
}

/// Writes what a walk over plain items answers, by these steps. It holds no memory: there is an
/// exit for each type.
fn plain_by(
    alloc: Global,
    asked: Asked<'_>,
    bytes: &[u8],
    steps: &[Step],
    line: &mut String,
) -> Written {
    by_type!(asked.word(0), line, plain_as(alloc, asked, bytes, steps))
}

/// Writes what a walk over plain items answers, which are read as `T`.
fn plain_as<T: Item + Debug>(
    alloc: Global,
    asked: Asked<'_>,
    bytes: &[u8],
    steps: &[Step],
    line: &mut String,
) -> Written {
    let items = standard_of::<T>(bytes, asked.number(1));
    write_walk(alloc, asked.words, steps, items, line)
}

/// The items in bytes at a stride as those of an accessor; None where they would overlap.
fn standard_of<T: Item>(bytes: &[u8], stride: usize) -> Option<Iter<'_, T>> {
    Some(Iter::Standard(items_of(bytes, stride)?))
}

/// The items in bytes at a stride; None where they would overlap.
fn items_of<T: Item>(bytes: &[u8], stride: usize) -> Option<ItemIter<'_, T>> {
    let size = T::size();
    if size == usize::MAX || stride < size {
        return None;
    }
    Some(ItemIter::new(bytes, stride))
}

/// The bytes of a sparse accessor's parts.
#[derive(Drop)]
struct Parts {
    base: Vec<u8>,
    indices: Vec<u8>,
    values: Vec<u8>,
}

/// Writes what a walk over sparse items answers: `sparse TYPE STEP.. : BASE WIDTH:INDICES VALUES`.
/// Without a base there are `zeros:COUNT`, or `none`.
pub fn sparse(alloc: Global, asked: Asked<'_>, line: &mut String) -> Written {
    let indices = asked.part(1).split_once(":").unwrap_or(("", "")).1;
    let parts = Parts {
        base: bytes_of(alloc, asked.part(0))?,
        indices: bytes_of(alloc, indices)?,
        values: bytes_of(alloc, asked.part(2))?,
    };
    sparse_by(alloc, asked, &parts, &steps_of(alloc, asked.words)?, line)
}

/// Writes what a walk over sparse items answers, by these steps. It holds no memory: there is an
/// exit for each type.
fn sparse_by(
    alloc: Global,
    asked: Asked<'_>,
    parts: &Parts,
    steps: &[Step],
    line: &mut String,
) -> Written {
    by_type!(asked.word(0), line, sparse_as(alloc, asked, parts, steps))
}

/// Writes what a walk over sparse items answers, which are read as `T`.
fn sparse_as<T: Item + Debug>(
    alloc: Global,
    asked: Asked<'_>,
    parts: &Parts,
    steps: &[Step],
    line: &mut String,
) -> Written {
    let items = replaced_of::<T>(asked, parts);
    write_walk(alloc, asked.words, steps, items, line)
}

/// The sparse items of these parts as those of an accessor.
fn replaced_of<'p, T: Item>(asked: Asked<'_>, parts: &'p Parts) -> Option<Iter<'p, T>> {
    Some(Iter::Sparse(sparse_of(asked, parts)?))
}

/// The sparse items of these parts.
fn sparse_of<'p, T: Item>(asked: Asked<'_>, parts: &'p Parts) -> Option<SparseIter<'p, T>> {
    let indices = indices_of(asked.part(1), &parts.indices);
    let values = items_of::<T>(&parts.values, T::size())?;
    let base = asked.part(0);
    match base.strip_prefix("zeros:") {
        Some(count) => {
            let count = count.parse::<usize>().unwrap_or(0);
            Some(SparseIter::with_base_count(None, count, indices, values))
        }
        None if base == "none" => Some(SparseIter::new(None, indices, values)),
        None => {
            let base = items_of::<T>(&parts.base, T::size())?;
            Some(SparseIter::new(Some(base), indices, values))
        }
    }
}

/// Stored indices of the width that a word begins with.
fn indices_of<'p>(word: &str, bytes: &'p [u8]) -> SparseIndicesIter<'p> {
    if word.starts_with("u8") {
        SparseIndicesIter::U8(ItemIter::new(bytes, 1))
    } else if word.starts_with("u16") {
        SparseIndicesIter::U16(ItemIter::new(bytes, 2))
    } else {
        SparseIndicesIter::U32(ItemIter::new(bytes, 4))
    }
}

/// Writes what steps over stored indices give: `indices WIDTH STEP.. : BYTES`.
pub fn indices(alloc: Global, asked: Asked<'_>, line: &mut String) -> Written {
    let bytes = bytes_of(alloc, asked.given)?;
    let (width, words) = asked.words.split_once(" ").unwrap_or(("", ""));
    write_indices(indices_of(width, &bytes), words, line)
}

/// Writes what each step over stored indices gives.
fn write_indices(mut indices: SparseIndicesIter<'_>, words: &str, line: &mut String) -> Written {
    for word in words.split_whitespace() {
        if !line.is_empty() {
            line.push_str("; ")?;
        }
        write_index(&mut indices, word, line)?;
    }
    Ok(())
}

/// Writes what a step over stored indices gives: `next`, `nth:NUMBER`, `len`, `hint`, `last` and
/// `count`.
fn write_index(indices: &mut SparseIndicesIter<'_>, word: &str, line: &mut String) -> Written {
    match word {
        "next" => write!(line, "{:?}", indices.next()),
        "len" => write!(line, "{}", indices.len()),
        "hint" => write!(line, "{:?}", indices.size_hint()),
        "last" => write!(line, "{:?}", indices.clone()?.last()),
        "count" => write!(line, "{}", indices.clone()?.count()),
        _ => {
            let places = word.strip_prefix("nth:").unwrap_or("");
            write!(
                line,
                "{:?}",
                indices.nth(places.parse::<usize>().unwrap_or(0))
            )
        }
    }
}
