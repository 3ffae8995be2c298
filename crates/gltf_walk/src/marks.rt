//! Which numbers were marked.

ghost use Rattle.std.specs.Prelude.{◌≡◌, ◌≢◌, ℕ, IfOk, false, true, slice_index_or};

use std::alloc::AllocError;

/// Marks a number, and returns whether it was marked before.
pub(crate) fn mark(marked: &mut Vec<bool>, number: usize) -> Result<bool, AllocError>
    ensures before { IfOk result (λ b. slice_index_or marked.old.items number false ≡ b) }
    ensures marks { IfOk result (λ b. slice_index_or marked.new.items number false ≡ true) }
    ensures keeps { IfOk result (λ b. (k : ℕ) → k ≢ number
        → slice_index_or marked.new.items k false ≡ slice_index_or marked.old.items k false) }
{
    'longer: while marked.len() <= number {
        marked.push(false)?;
    }
    let before = marked[number];
    marked[number] = true;
    Ok(before)
}
