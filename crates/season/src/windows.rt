// Which days of a year a window holds.
ghost use Rattle.std.specs.Prelude.{◌≡◌};
ghost use Rattle.season.specs.Windows.{inside_of};

use crate::{MonthDay, Window};

// Whether a day is inside a window: between the edges, or, over the year's end, from the first on or up to the last.
#[tactic(auto, unfolding(crate::specs::Windows::no_later, crate::specs::Windows::inside_of))]
pub(crate) fn inside(window: Window, at: MonthDay) -> bool
    ensures { result ≡ inside_of window at }
{
    let from = window.first <= at;
    let until = at <= window.last;
    if window.first <= window.last {
        from && until
    } else {
        from || until
    }
}
