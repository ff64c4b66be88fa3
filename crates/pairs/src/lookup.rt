// The tests of the two lookups: that a number is the index of a leg, and that a pair of places is a leg.
ghost use Rattle.std.specs.Prelude.{◌≡◌};
ghost use Rattle.base.specs.Numbers.{number_of};
ghost use Rattle.pairs.specs.Lookup.{index_refusal, pair_refusal};

use base::Refusal;
use road::Road;

// 5 unless some leg has the index.
pub(crate) fn test_index(index: usize) -> Result<(), Refusal>
    ensures { number_of result ≡ index_refusal index }
{
    if index < Road::LEGS {
        return Ok(());
    }
    Err(Refusal::Place)
}

// 5 unless the pair is a leg: the first place below the second, and that a place of some table.
pub(crate) fn test_pair(first: u16, second: u16) -> Result<(), Refusal>
    ensures { number_of result ≡ pair_refusal first second }
{
    if first < second && usize::from(second) < Road::PLACES {
        return Ok(());
    }
    Err(Refusal::Place)
}
