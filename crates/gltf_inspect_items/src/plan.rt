//! Which accessors are looked at, and which of them read the same.
ghost use Rattle.std.specs.Prelude.{◌≡◌, List};
ghost use Rattle.gltf_json_geometry.specs.declared.accessor.Accessor.{Accessor};
ghost use Rattle.gltf_ranges.specs.Alike.{AreFirsts, ReadTheSame};
ghost use Rattle.gltf_inspect_items.specs.Plans.{is_out};

/// Which accessors are looked at, and which of them read the same.
#[derive(Clone, Copy)]
pub struct Plan<'a> {
    /// For each accessor the index of the first one that reads the same, whose items are gone over
    /// for both.
    pub firsts: &'a [usize],
    /// Whether each accessor is left out. One without a mark is not.
    pub left_out: &'a [bool],
}

/// Whether the accessor at an index is left out.
pub fn is_out(left_out: &[bool], index: usize) -> bool
    ensures { result ≡ is_out left_out.now index }
{
    match left_out.get(index) {
        None => false,
        Some(mark) => *mark,
    }
}

/// The first accessor that reads what the one at an index does.
pub fn first_of(firsts: &[usize], index: usize) -> usize
    ensures { (accessors : List Accessor) → AreFirsts accessors firsts.now
        → ReadTheSame accessors index result }
{
    match firsts.get(index) {
        None => index,
        Some(first) => *first,
    }
}
