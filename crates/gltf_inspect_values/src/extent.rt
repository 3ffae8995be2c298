//! The least and the greatest number of each column.
ghost use Rattle.std.specs.Prelude.{◌≡◌, ℕ, ◌≤◌, ◌&&◌};
ghost use Rattle.std.specs.Float.Ieee.{le};
ghost use Rattle.gltf_inspect_values.specs.Components.{number_at};
ghost use Rattle.gltf_inspect_values.specs.Extents.{nothing, widened, columns, listed};
ghost use Rattle.gltf_inspect_values.specs.Extents.{widened_four, widened_columns};
ghost use Rattle.gltf_inspect_values.specs.Extents.{least_is, greatest_is};

use crate::component::{Component, number_at};

/// The least and the greatest of some numbers. Of no numbers the least is infinite, and the
/// greatest is infinite below zero.
#[derive(Clone, Copy)]
pub(crate) struct Extent {
    /// The least one.
    pub(crate) least: f64,
    /// The greatest one.
    pub(crate) greatest: f64,
}

/// The extents of four columns.
#[derive(Clone, Copy)]
pub(crate) struct Four {
    /// That of the first one.
    pub(crate) first: Extent,
    /// That of the second one.
    pub(crate) second: Extent,
    /// That of the third one.
    pub(crate) third: Extent,
    /// That of the fourth one.
    pub(crate) fourth: Extent,
}

/// Those of sixteen columns: no item has more.
#[derive(Clone, Copy)]
pub(crate) struct Columns {
    /// Those of the first four.
    pub(crate) first: Four,
    /// Those of the next four.
    pub(crate) second: Four,
    /// Those of the four after these.
    pub(crate) third: Four,
    /// Those of the last four.
    pub(crate) fourth: Four,
}

/// The extent of no numbers.
fn nothing() -> Extent
    ensures { result ≡ nothing }
{
    Extent {
        least: f64::INFINITY,
        greatest: f64::NEG_INFINITY,
    }
}

/// The extents of the columns of no items.
pub(crate) fn no_columns() -> Columns
    ensures { result ≡ columns (λ c. nothing) }
{
    let first = nothing();
    let four = Four {
        first,
        second: first,
        third: first,
        fourth: first,
    };
    Columns {
        first: four,
        second: four,
        third: four,
        fourth: four,
    }
}

/// Whether a number is not below the least one, and not above the greatest one.
#[inline(always)]
fn is_within(extent: Extent, number: f64) -> bool
    ensures { result ≡ (le extent.least number && le number extent.greatest) }
{
    extent.least <= number && number <= extent.greatest
}

/// An extent with a further number. Most numbers are within the extent so far, so that this is
/// seldom called.
#[cold]
#[inline(never)]
fn with(extent: Extent, number: f64) -> Extent
    ensures { result ≡ widened extent (Some number) }
{
    Extent {
        least: if number < extent.least {
            number
        } else {
            extent.least
        },
        greatest: if extent.greatest < number {
            number
        } else {
            extent.greatest
        },
    }
}

/// An extent with a further number, where there is one.
#[tactic(auto, using(crate::proofs::Within::within_same))]
#[inline(always)]
fn widened(extent: Extent, number: Option<f64>) -> Extent
    ensures { result ≡ widened extent number }
{
    match number {
        None => extent,
        Some(number) => {
            if is_within(extent, number) {
                extent
            } else {
                with(extent, number)
            }
        }
    }
}

/// The extents of four columns with those of a further item.
#[inline(always)]
fn widened_four<T: Component>(four: Four, column: usize, item: &[u8]) -> Four
    requires { column ≤ 12 }
    ensures { result ≡ widened_four (λ (c : ℕ). number_at T.size T.value T.number c item.now)
        column four }
{
    Four {
        first: widened(four.first, number_at::<T>(item, column)),
        second: widened(four.second, number_at::<T>(item, column + 1)),
        third: widened(four.third, number_at::<T>(item, column + 2)),
        fourth: widened(four.fourth, number_at::<T>(item, column + 3)),
    }
}

/// The extents of columns with those of a further item.
#[inline(always)]
pub(crate) fn widened_columns<T: Component>(columns: Columns, item: &[u8]) -> Columns
    ensures { result ≡ widened_columns
        (λ (c : ℕ). number_at T.size T.value T.number c item.now) columns }
{
    Columns {
        first: widened_four::<T>(columns.first, 0, item),
        second: widened_four::<T>(columns.second, 4, item),
        third: widened_four::<T>(columns.third, 8, item),
        fourth: widened_four::<T>(columns.fourth, 12, item),
    }
}

/// The extents of columns, one after the other.
pub(crate) fn listed(columns: &Columns) -> [Extent; 16]
    ensures { result ≡ listed columns.now }
{
    let Columns {
        first,
        second,
        third,
        fourth,
    } = *columns;
    [
        first.first,
        first.second,
        first.third,
        first.fourth,
        second.first,
        second.second,
        second.third,
        second.fourth,
        third.first,
        third.second,
        third.third,
        third.fourth,
        fourth.first,
        fourth.second,
        fourth.third,
        fourth.fourth,
    ]
}

/// Whether the least number is this one.
pub(crate) fn least_is(extent: Extent, number: f64) -> bool
    ensures { result ≡ least_is extent number }
{
    extent.least == number && extent.least <= extent.greatest
}

/// Whether the greatest number is this one.
pub(crate) fn greatest_is(extent: Extent, number: f64) -> bool
    ensures { result ≡ greatest_is extent number }
{
    extent.greatest == number && extent.least <= extent.greatest
}
