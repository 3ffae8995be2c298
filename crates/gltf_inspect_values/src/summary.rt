//! What one walk over the items of an accessor finds.
ghost use Rattle.std.specs.Prelude.{◌≡◌, ◌||◌, ℕ, true};
ghost use Rattle.gltf_inspect_values.specs.Components.{number_at};
ghost use Rattle.gltf_inspect_values.specs.Extents.{widened_columns};
ghost use Rattle.gltf_inspect_values.specs.Summaries.{no_items};

use crate::component::Component;
use crate::extent::{Columns, no_columns, widened_columns};

/// What one walk over the items of an accessor finds.
#[derive(Clone, Copy)]
pub(crate) struct Summary {
    /// Whether there are items.
    pub(crate) exist: bool,
    /// Whether some float is infinite or not a number.
    pub(crate) infinite: bool,
    /// The least and the greatest number of each column.
    pub(crate) columns: Columns,
}

/// What is found in no items.
pub(crate) fn no_items() -> Summary
    ensures { result ≡ no_items }
{
    Summary {
        exist: false,
        infinite: false,
        columns: no_columns(),
    }
}

/// What is found in a further item too.
#[inline(always)]
pub(crate) fn with_item<T: Component>(summary: Summary, item: &[u8]) -> Summary
    ensures { result ≡ record {
      exist = true;
      infinite = summary.infinite || T.any_infinite item.now;
      columns = widened_columns (λ (c : ℕ). number_at T.size T.value T.number c item.now)
          summary.columns;
    } }
{
    Summary {
        exist: true,
        infinite: summary.infinite || T::is_infinite(item),
        columns: widened_columns::<T>(summary.columns, item),
    }
}

/// What is found in items whose components are no numbers.
pub(crate) fn without_numbers(exist: bool) -> Summary
    ensures { result ≡ record no_items { exist = exist } }
{
    Summary {
        exist,
        infinite: false,
        columns: no_columns(),
    }
}
