// Roads known only roughly: a lower and an upper floor of a day, out of a lower and an upper figure for each leg, with refusal 15.
// Stands on `base`, `road`, `dayfile`, `workfunction`, `book` and `dispatch`.
#![tactic(auto)]

mod bounds;
mod tests;

ghost use Rattle.std.specs.Prelude.{◌≡◌};
ghost use Rattle.rough.specs.Rough.{two_floors, rough_of};

use base::Refusal;
use dayfile::Day;
use dispatch::Dispatch;

// The lower and the upper floor of a day.
#[derive(Clone, Copy)]
pub struct RoughFloors {
    pub lower: u64,
    pub upper: u64,
}

// The least cost of all plans that end at the starts, under the lower and under the upper table, neither of which must keep the triangle
// rule: the floor over every accepted table that lies between them lies between these two. 3 for the places and each table's length, then
// 6, 7, 4 for the lower and the upper table, 15 where a lower figure exceeds its upper, then 5.
pub fn floors(day: Day, lower: &[u32], upper: &[u32]) -> Result<RoughFloors, Refusal>
    ensures { two_floors result ≡ rough_of day lower.now upper.now }
{
    tests::test(day, lower, upper)?;
    Ok(RoughFloors {
        lower: Dispatch::plan_floor(day, lower)?,
        upper: Dispatch::plan_floor(day, upper)?,
    })
}
