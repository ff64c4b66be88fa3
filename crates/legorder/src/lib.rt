// The pairs of places of all legs in the order of the day file, worked out. Leg i is the same pair in every road table that has it. Stands on
// `base` and `road`.
#![tactic(auto)]

mod fill;

ghost use Rattle.std.specs.Prelude.{◌≡◌};
ghost use Rattle.road.specs.Table.{most_places};
ghost use Rattle.legorder.specs.Pairs.{pairs, columns_of};

use road::Road;

// The two places of a leg.
#[derive(Clone, Copy, PartialEq, Eq)]
pub struct Pair {
    pub first: u16,
    pub second: u16,
}

// The pairs of all legs by their index, in two columns, which `columns_of` and the text that `pairtable` prints have so.
#[derive(Clone, Copy)]
pub struct Columns {
    pub firsts: [u16; Road::LEGS],
    pub seconds: [u16; Road::LEGS],
}

// The pairs of all legs: those of the legs to each place in turn.
pub fn generate() -> Columns
    ensures { result ≡ columns_of (pairs most_places) }
{
    let mut firsts = [0; Road::LEGS];
    let mut seconds = [0; Road::LEGS];
    for v in 0..Road::PLACES {
        fill::legs_to(v, &mut firsts, &mut seconds);
    }
    Columns { firsts, seconds }
}
