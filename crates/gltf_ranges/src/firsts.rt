//! For each accessor the first one that reads the same.
ghost use Rattle.std.specs.Prelude.{◌≡◌, IfOk, cond, unwrap_or};
ghost use Rattle.std.specs.BTreeMap.{get, is_at};
ghost use Rattle.gltf_ranges.specs.Alike.{AreFirsts};
ghost use Rattle.gltf_ranges.specs.Ranges.{range_cmp};
ghost use Rattle.gltf_ranges.specs.declared.range.Range.{Range};

use crate::range::{Range, range_of};
use gltf_json_geometry::accessor::Accessor;
use std::alloc::{AllocError, Global};
use std::collections::BTreeMap;

/// For each accessor the index of the first one that reads as many items of the same type from the
/// same place of the same view on, which may be itself. Of one that has a sparse part or no view it
/// is itself. Fails where there is no memory.
pub fn firsts(alloc: Global, accessors: &[Accessor]) -> Result<Vec<usize>, AllocError>
    ensures { IfOk result (λ firsts. AreFirsts accessors.now firsts.items) }
{
    let mut seen = BTreeMap::new(alloc);
    let mut firsts = Vec::new(alloc);
    for (i, accessor) in accessors.iter().enumerate() {
        let first = first_of(&mut seen, i, range_of(i, accessor))?;
        firsts.push(first)?;
    }
    Ok(firsts)
}

/// The first accessor that was seen with a range; where there is none, this one is.
fn first_of(
    seen: &mut BTreeMap<Range, usize>,
    index: usize,
    range: Range,
) -> Result<usize, AllocError>
    ensures first { IfOk result (λ first. first
        ≡ unwrap_or (get range_cmp seen.old range) index) }
    ensures kept { IfOk result (λ first. (q : Range) → get range_cmp seen.new q
        ≡ cond (is_at (range_cmp range) q) (Some first) (get range_cmp seen.old q)) }
{
    let before = seen.get(&range).copied();
    match before {
        Some(first) => Ok(first),
        None => {
            seen.insert(range, index)?;
            Ok(index)
        }
    }
}
