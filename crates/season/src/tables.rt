// The tests of the two lent tables.
ghost use Rattle.std.specs.Prelude.{◌≡◌};
ghost use Rattle.base.specs.Numbers.{number_of};
ghost use Rattle.season.specs.Season.{tables_refusal};

use base::Refusal;
use road::Road;

// 3, 4 and 8 for the ordinary table, then for the thaw table.
#[tactic(auto, using(base::proofs::Numbers::handing))]
#[inline(always)]
pub(crate) fn test(places: usize, ordinary: &[u32], thaw: &[u32]) -> Result<(), Refusal>
    ensures { number_of result ≡ tables_refusal places ordinary.now thaw.now }
{
    Road::test(places, ordinary)?;
    Road::test(places, thaw)
}
