//! How a walk is done.

ghost use Rattle.std.specs.Prelude.{◌≡◌, ◌+◌, ◌*◌, ◌≤◌, IfOk, OnErr, length, drop};
ghost use Rattle.gltf_items.specs.Sparse.{digits};
ghost use Rattle.gltf_data.specs.Iter.{counted_items};
ghost use Rattle.gltf_data.specs.Walk.{all_answers, position_after, end_answer, most_index_reads};
ghost use Rattle.gltf_data.specs.Walk.{most_item_reads, step_reads, step_items, end_reads};
ghost use Rattle.gltf_data.specs.Walk.{end_items, IsLeftBySome};
ghost use Rattle.gltf_data.specs.Steps.{answer_of, after_step, after_end, end_of, Takes};
ghost use Rattle.gltf_data.specs.Steps.{ReportsReads};

use crate::accessor_iter::Iter;
use crate::walk::{Answer, End, Ended, Step, Walked};
use gltf_items::Item;
use std::alloc::{AllocError, Global};

/// One step.
fn take_step<T: Item>(items: &mut Iter<'_, T>, step: Step) -> Answer<T>
    ensures gives { result ≡ answer_of (counted_items items.old).items step }
    ensures leaves { (counted_items items.new).items
        ≡ after_step (counted_items items.old).items step }
    ensures costs { Takes (counted_items items.old) (counted_items items.new)
        (step_reads (counted_items items.old).stored step) (step_items step) }
{
    match step {
        Step::Next => Answer::Item(items.next()),
        Step::Nth(n) => Answer::Item(items.nth(n)),
        Step::Len => Answer::Length(items.len()),
    }
}

/// The end.
fn take_end<T: Item>(items: &mut Iter<'_, T>, end: End) -> Ended<T>
    ensures gives { result ≡ end_of (counted_items items.old).items end }
    ensures leaves { (counted_items items.new).items
        ≡ after_end (counted_items items.old).items end }
    ensures costs { Takes (counted_items items.old) (counted_items items.new)
        (end_reads (counted_items items.old).stored end) (end_items end) }
{
    match end {
        End::Last => Ended::Last(items.take_last()),
        End::Count => Ended::Count(items.len()),
        End::Stop => Ended::Stopped,
    }
}

/// Takes a list of steps and then the end over items that the caller keeps. It gives what `walk`
/// gives; the counts are how much those of `items` grew by it. After it `items` has what the steps
/// and the end leave, and where memory ran out what some of the steps leave, from the first on.
pub fn walk_on<T: Item>(
    alloc: Global,
    items: &mut Iter<'_, T>,
    steps: &[Step],
    end: End,
) -> Result<Walked<T>, AllocError>
    ensures answers { IfOk result (λ w. w.answers.items
        ≡ all_answers (counted_items items.old).items 0 steps.now) }
    ensures ended { IfOk result (λ w. w.ended
        ≡ end_answer (counted_items items.old).items
        (position_after (counted_items items.old).items 0 steps.now) end) }
    ensures leaves { IfOk result (λ _. (counted_items items.new).items
        ≡ after_end (drop (position_after (counted_items items.old).items 0 steps.now)
        (counted_items items.old).items) end) }
    ensures cut_short { OnErr result (IsLeftBySome (counted_items items.old).items steps.now
        (counted_items items.new).items) }
    ensures reports { IfOk result (λ w.
        ReportsReads (counted_items items.old) (counted_items items.new) w) }
    ensures costs { Takes (counted_items items.old) (counted_items items.new)
        (most_index_reads (counted_items items.old).stored steps.now end)
        (most_item_reads steps.now end) }
{
    let index_reads = items.index_reads();
    let base_reads = items.base_reads();
    let value_reads = items.value_reads();
    let mut answers = Vec::new(alloc);
    for step in steps {
        let answer = take_step(items, *step);
        answers.push(answer)?;
    }
    let ended = take_end(items, end);
    Ok(Walked {
        answers,
        ended,
        index_reads: items.index_reads().since(&index_reads),
        base_reads: items.base_reads().since(&base_reads),
        value_reads: items.value_reads().since(&value_reads),
    })
}

/// The answers of a list of steps, one after the other, and then of the end. They are those of a
/// position in the list of items that are left, first 0. Over c stored indices, where c has d
/// binary digits, `Next` reads at most one of them, `Nth` and the end `Last` at most d + 1, and all
/// others read nothing: with s steps at most (s + 1) * (d + 1). Each that asks for an item reads at
/// most one of the base and one value.
pub fn walk<T: Item>(
    alloc: Global,
    mut items: Iter<'_, T>,
    steps: &[Step],
    end: End,
) -> Result<Walked<T>, AllocError>
    ensures answers { IfOk result (λ w. w.answers.items
        ≡ all_answers (counted_items items.entry).items 0 steps.now) }
    ensures ended { IfOk result (λ w. w.ended
        ≡ end_answer (counted_items items.entry).items
        (position_after (counted_items items.entry).items 0 steps.now) end) }
    ensures index_reads { IfOk result (λ w. w.index_reads
        ≤ most_index_reads (counted_items items.entry).stored steps.now end) }
    ensures base_reads { IfOk result (λ w. w.base_reads ≤ most_item_reads steps.now end) }
    ensures value_reads { IfOk result (λ w. w.value_reads ≤ most_item_reads steps.now end) }
    ensures bound { most_index_reads (counted_items items.entry).stored steps.now end
        ≤ (length steps.now + 1) * (digits (counted_items items.entry).stored + 1) }
{
    walk_on(alloc, &mut items, steps, end)
}
