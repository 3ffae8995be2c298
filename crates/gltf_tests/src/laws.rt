//! What the bound on the reads of a jump comes to.

ghost use Rattle.std.specs.Prelude.{◌≡◌, ◌+◌};
ghost use Rattle.gltf_items.specs.Sparse.{digits};

/// How many index reads one jump makes at most, over so many stored indices.
pub fn most_index_reads()
    ensures none { digits 0 + 1 ≡ 1 }
    ensures one { digits 1 + 1 ≡ 2 }
    ensures three { digits 3 + 1 ≡ 3 }
    ensures thousand { digits 1000 + 1 ≡ 11 }
{}
