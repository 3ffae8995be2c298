//! What was found at indices, kept in a table.
ghost use Rattle.std.specs.Prelude.{◌≡◌, Some, IfSome, slice_get, slice_set};

/// What was found before at an index.
pub fn found_before<T: Copy>(table: &[Option<T>], index: usize) -> Option<T>
    ensures { IfSome result (λ found. slice_get table.now index ≡ Some (Some found)) }
{
    match table.get(index) {
        None => None,
        Some(found) => *found,
    }
}

/// Keeps what is found at an index, where the table has it.
#[tactic(auto, using(std::proofs::lemmas::List::set_past))]
pub fn keep<T: Copy + Drop>(table: &mut [Option<T>], index: usize, found: T)
    ensures { table.new ≡ slice_set table.old index (Some found) }
{
    if index < table.len() {
        table[index] = Some(found);
    }
}
