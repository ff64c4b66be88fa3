// The test of the metres that the cranes have driven.
ghost use Rattle.std.specs.Prelude.{◌≡◌};
ghost use Rattle.base.specs.Numbers.{number_of, unless};
ghost use Rattle.book.specs.Book.{driven_rule};

use base::Refusal;

// 13 if a crane's metres exceed the most.
#[tactic(auto, unfolding(base::specs::Tests::all_below))]
pub(crate) fn test(most: u32, driven: &[u32]) -> Result<(), Refusal>
    ensures { number_of result ≡ unless (driven_rule most driven.now) 13 }
{
    for metres in driven {
        if most < *metres {
            return Err(Refusal::Driven);
        }
    }
    Ok(())
}
