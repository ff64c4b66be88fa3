// The pairs of places of all legs, held as a constant: what stands at an index, and at which index a pair stands. The constant is proved to be
// what `legorder` works out. Stands on `base`, `road` and `legorder`; its theorems also on `dayfile`.
//
// src/table.rt is the text that the program `pairtable` prints. After a change of the order or of the most places it is made anew by
//
//     (cd crates/pairtable && rt run)
//     crates/pairtable/out/pairtable > crates/pairtable/stdout && cp crates/pairtable/stdout crates/pairs/src/table.rt
//
// at the top of the repository. The two files are compared by
//
//     cmp crates/pairtable/stdout crates/pairs/src/table.rt
#![tactic(auto)]

mod lookup;
mod table;

ghost use Rattle.std.specs.Prelude.{◌≡◌};
ghost use Rattle.road.specs.Table.{most_places};
ghost use Rattle.legorder.specs.Pairs.{pairs, columns_of};
ghost use Rattle.pairs.specs.Lookup.{pair_found, pair_at_of, index_found, index_of};

use base::Refusal;
use legorder::{Columns, Pair};
use road::Road;

// The constant table. Two columns and no array of `Pair`: `columns_of` in the contract has them, and so has the text that `pairtable` prints.
#[tactic(auto, unfolding(road::specs::Table::in_order, base::specs::Lists::up_to))]
pub fn held() -> Columns
    ensures { result ≡ columns_of (pairs most_places) }
{
    Columns {
        firsts: table::FIRSTS,
        seconds: table::SECONDS,
    }
}

// The pair of the leg with an index.
#[tactic(auto, unfolding(crate::specs::Lookup::pair_at_of))]
pub fn pair_at(index: usize) -> Result<Pair, Refusal>
    ensures { pair_found result ≡ pair_at_of index }
{
    lookup::test_index(index)?;
    let columns = held();
    Ok(Pair {
        first: columns.firsts[index],
        second: columns.seconds[index],
    })
}

// The index of the leg with a pair of places.
#[tactic(auto, using(road::proofs::Order::legs_counted, road::proofs::Order::legs_most), unfolding(crate::specs::Lookup::index_of))]
pub fn index_of(first: u16, second: u16) -> Result<usize, Refusal>
    ensures { index_found result ≡ index_of first second }
{
    lookup::test_pair(first, second)?;
    Ok(Road::legs(usize::from(second)) + usize::from(first))
}
