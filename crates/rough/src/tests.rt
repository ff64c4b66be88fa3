// The tests of a day beside a lower and an upper table.
ghost use Rattle.std.specs.Prelude.{◌≡◌};
ghost use Rattle.base.specs.Numbers.{number_of};
ghost use Rattle.rough.specs.Rough.{two_counts_refusal, rough_refusal};

use crate::bounds;
use base::Refusal;
use dayfile::Day;
use road::Road;

// 3 for the places and the length of each table, then 6, then 7.
#[tactic(auto, using(base::proofs::Numbers::handing), unfolding(crate::specs::Rough::two_counts_refusal))]
fn counts(day: Day, lower: usize, upper: usize) -> Result<(), Refusal>
    ensures { number_of result ≡ two_counts_refusal day lower upper }
{
    Road::test_run(day.places, lower)?;
    Day::test_counts(day.places, upper, day.cranes, day.calls)
}

// The whole test. The day's own test over the upper table comes last: what it has left to refuse is a place, by 5.
pub(crate) fn test(day: Day, lower: &[u32], upper: &[u32]) -> Result<(), Refusal>
    ensures { number_of result ≡ rough_refusal day lower.now upper.now }
{
    counts(day, lower.len(), upper.len())?;
    Road::test_legs(day.places, lower)?;
    Road::test_legs(day.places, upper)?;
    bounds::test(lower, upper)?;
    day.test_placed(upper)
}
