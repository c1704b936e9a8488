//! How far the floor lies under the total.
ghost use Rattle.std.specs.Prelude.{◌≡◌};
ghost use Rattle.page_figures.specs.Shown.{gap_of};

/// None where an `i128` does not hold it, which is never so of a docket.
pub fn gap_of(total: u128, floor: i128) -> Option<i128>
    ensures { result ≡ gap_of total floor }
{
    floor.checked_neg()?.checked_add_unsigned(total)
}
