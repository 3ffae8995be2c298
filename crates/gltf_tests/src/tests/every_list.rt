//! Every list of at most four indices from 0 to 5, against the definition written as a plain
//! function.

use gltf_items::{ItemIter, SparseIndicesIter, SparseIter};
use std::process::Abort;

const BASE: [u8; 5] = [10, 20, 30, 40, 50];

const VALUES: [u8; 4] = [1, 2, 3, 4];

/// Item i: the value at the place of i among the indices that strictly increase from the first one
/// on, else the base's.
fn expected(indices: &[u8], i: usize) -> Option<u8> {
    let base = BASE.get(i).copied()?;
    let mut before = None;
    for (index, value) in indices.iter().zip(&VALUES) {
        if before.is_some_and(|before| *index <= before) {
            return Some(base);
        }
        if usize::from(*index) == i {
            return Some(*value);
        }
        before = Some(*index);
    }
    Some(base)
}

fn items(indices: &[u8]) -> SparseIter<'_, u8> {
    SparseIter::new(
        Some(ItemIter::new(&BASE, 1)),
        SparseIndicesIter::U8(ItemIter::new(indices, 1)),
        ItemIter::new(&VALUES, 1),
    )
}

/// The iterator after so many calls of `next`.
fn after(indices: &[u8], steps: usize) -> SparseIter<'_, u8> {
    let mut left = items(indices);
    for _ in 0..steps {
        let _ = left.next();
    }
    left
}

/// Compares each step from each position.
fn compare(rt: &impl Abort, indices: &[u8]) {
    for position in 0..7usize {
        let left = 5usize.saturating_sub(position);
        assert_eq!(rt; after(indices, position).len(), left, "{indices:?}");
        assert_eq!(rt; after(indices, position).count(), left, "{indices:?}");
        let last = if left == 0 {
            None
        } else {
            expected(indices, 4)
        };
        assert_eq!(rt; after(indices, position).last(), last, "{indices:?}");
        for n in 0..7usize {
            compare_jump(rt, indices, position, n);
        }
    }
}

/// Compares a jump from a position, and the step after it.
fn compare_jump(rt: &impl Abort, indices: &[u8], position: usize, n: usize) {
    let mut jumped = after(indices, position);
    let (item, next) = (jumped.nth(n), jumped.next());
    let place = position.saturating_add(n);
    assert_eq!(rt;
        item,
        expected(indices, place),
        "{indices:?} from {position} by {n}"
    );
    let behind = expected(indices, place.saturating_add(1));
    assert_eq!(rt; next, behind, "{indices:?} from {position} behind {n}");
}

#[test]
fn every_short_list_of_indices(rt: HostRuntime) {
    let mut lists = 0u32;
    for (len, count) in [(0usize, 1u32), (1, 6), (2, 36), (3, 216), (4, 1296)] {
        for code in 0..count {
            let mut indices = [0; 4];
            let mut others = code;
            for index in indices.iter_mut() {
                *index = (others % 6) as u8;
                others /= 6;
            }
            compare(&rt, &indices[..len.min(4)]);
            lists = lists.wrapping_add(1);
        }
    }
    assert_eq!(rt; lists, 1555);
}
