// The road table: its limits, its legs and metres, and its tests with the refusals 3, 4 and 8.
// Stands on `base`.
#![tactic(auto)]

mod legs;
mod triangles;

ghost use Rattle.std.specs.Prelude.{◌≡◌, length};
ghost use Rattle.base.specs.Numbers.{number_of, ◌then◌};
ghost use Rattle.road.specs.Table.{legs_of, metres_of, entry, places_refusal, run_refusal, metres_refusal, legs_refusal, triangle_refusal, table_refusal};

use base::Refusal;

// The road table's limits and functions. A table is a lent run of numbers beside its number of places: the metres of the legs (0,1),
// (0,2), (1,2), (0,3) and so on, by second place, then by first. No struct here holds it: the
// number of places is a field of the day or is asked, and the run is lent, so that a struct of both would be put together at each call.
#[derive(Clone, Copy)]
pub struct Road {}

impl Road {
    // The most places of a table.
    pub const PLACES: usize = 64;

    // The most metres of a leg.
    pub const METRES: u32 = 1_000_000;

    // The most legs of a table.
    pub const LEGS: usize = 2_016;

    // How many legs a table of so many places has; 0 for more places than a table may have.
    #[tactic(auto, using(crate::proofs::Order::legs_counted), unfolding(crate::specs::Table::leg_count))]
    pub fn legs(places: usize) -> usize
        ensures { result ≡ legs_of places }
    {
        match places {
            1..=Road::PLACES => places * (places - 1) / 2,
            _ => 0,
        }
    }

    // The metres from one place to another; 0 past the most places, and past the run.
    pub fn metres(table: &[u32], from: usize, to: usize) -> u32
        ensures { result ≡ entry (metres_of table.now) from to }
    {
        if from < to {
            return legs::metres(table, from, to);
        }
        if to < from {
            return legs::metres(table, to, from);
        }
        0
    }

    // 3 unless the number of places is within its limits.
    #[tactic(auto, unfolding(base::specs::Tests::within))]
    pub fn test_places(places: usize) -> Result<(), Refusal>
        ensures { number_of result ≡ places_refusal places }
    {
        match places {
            1..=Road::PLACES => Ok(()),
            _ => Err(Refusal::Order),
        }
    }

    // 3 unless the number of places is within its limits and they have so many legs.
    #[tactic(auto, using(base::proofs::Numbers::handing, crate::proofs::Table::few_places, crate::proofs::Order::legs_counted), unfolding(crate::specs::Table::run_refusal))]
    pub fn test_run(places: usize, legs: usize) -> Result<(), Refusal>
        ensures { number_of result ≡ run_refusal places legs }
    {
        Road::test_places(places)?;
        if legs != Road::legs(places) {
            return Err(Refusal::Order);
        }
        Ok(())
    }

    // 4 if the metres of a leg are above the limit.
    pub fn test_metres(metres: u32) -> Result<(), Refusal>
        ensures { number_of result ≡ metres_refusal metres }
    {
        if Road::METRES < metres {
            return Err(Refusal::Metres);
        }
        Ok(())
    }

    // 3, then 4 unless the metres of every leg are within the limit.
    #[tactic(auto, using(base::proofs::Numbers::handing, crate::proofs::Table::run_held))]
    pub fn test_legs(places: usize, table: &[u32]) -> Result<(), Refusal>
        ensures { number_of result ≡ run_refusal places (length table.now) then legs_refusal table.now }
    {
        Road::test_run(places, table.len())?;
        legs::test(table)
    }

    // 3, then 8 unless every three places keep the triangle rule.
    #[tactic(auto, using(base::proofs::Numbers::handing, crate::proofs::Table::run_held))]
    pub fn test_triangles(places: usize, table: &[u32]) -> Result<(), Refusal>
        ensures { number_of result ≡ run_refusal places (length table.now) then triangle_refusal places table.now }
    {
        Road::test_run(places, table.len())?;
        triangles::test(table, places)
    }

    // The whole test of a table: 3, then 4, then 8.
    #[inline(always)]
    pub fn test(places: usize, table: &[u32]) -> Result<(), Refusal>
        ensures { number_of result ≡ table_refusal places table.now }
    {
        Road::test_legs(places, table)?;
        triangles::test(table, places)
    }
}
