//! Laws of what is left out. Each is the contract of a function that does nothing.
ghost use Rattle.std.specs.Prelude.{◌≡◌, ◌≤◌, ℕ, List, true};
ghost use Rattle.gltf_ranges.specs.Budget.{taken, total, too_dear, none_of};

/// Those that are not left out take at most as many bytes as the budget.
pub fn what_is_taken_is_within_the_budget()
    ensures { (budget : ℕ) (prices : List ℕ) → taken budget prices ≤ budget }
{}

/// Where the budget is enough for all, none is left out.
pub fn none_is_left_out_where_there_is_enough()
    ensures { (budget : ℕ) (prices : List ℕ) → total prices ≤ budget
        → none_of (too_dear budget prices) ≡ true }
{}
