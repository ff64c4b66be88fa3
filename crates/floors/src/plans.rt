// The floor by its definition: the least cost of all plans of a few stops, one after another. It reads a square of metres and shares nothing
// with the library: it has no index of a leg, no weights and no net costs.
use dayfile::Day;
use road::Road;
use std::array;

// The most places of a day that is searched.
const PLACES: usize = 4;

// The most stops of it: the starts, then the calls.
const STOPS: usize = 5;

// For each place and each other the metres between them, and 0 from a place to itself.
type Square = [[u32; PLACES]; PLACES];

// The follower of each stop.
type Plan = [usize; STOPS];

// How many plans 0 to 5 stops have.
const PLANS: [usize; STOPS + 1] = [1, 1, 2, 6, 24, 120];

// More than any plan costs.
const FAR: u64 = 1_000_000_000_000;

// The square of the legs (0,1), (0,2), (1,2), (0,3), (1,3), (2,3).
fn square(legs: &[u32; Road::LEGS]) -> Square {
    let [a, b, c, d, e, f, ..] = *legs;
    [[0, a, b, d], [a, 0, c, e], [b, c, 0, f], [d, e, f, 0]]
}

// The place of a stop of a day.
fn place(day: &Day, stop: usize) -> usize {
    if stop < day.cranes {
        return usize::from(day.starts[stop % Day::CRANES]);
    }
    usize::from(day.requests[stop.wrapping_sub(day.cranes) % Day::CALLS])
}

// The plan of a number. Every plan in which each follower follows one stop has one; those of the first stops alone have the lowest.
fn plan(number: usize) -> Plan {
    let mut plan = [0, 1, 2, 3, 4];
    plan.swap(1, 1 - number % 2);
    plan.swap(2, 2 - number / 2 % 3);
    plan.swap(3, 3 - number / 6 % 4);
    plan.swap(4, 4 - number / 24 % 5);
    plan
}

// What is searched of a day: the square of its metres, how many cranes and stops it has, and the place of each stop and of the follower of the
// same number: the ends stand where the starts do.
#[derive(Clone, Copy)]
struct Search {
    square: Square,
    cranes: usize,
    count: usize,
    places: [usize; STOPS],
}

impl Search {
    // The way from a stop to a follower that is an end or a later call; of any other more than a plan costs.
    fn way(&self, stop: usize, follower: usize) -> u64 {
        if follower < self.cranes || stop < follower {
            let from = self.places[stop % STOPS];
            let to = self.places[follower % STOPS];
            return u64::from(self.square[from % PLACES][to % PLACES]);
        }
        FAR
    }

    // The cost of a plan.
    fn cost(&self, plan: Plan) -> u64 {
        plan.iter().enumerate().take(self.count).fold(
            0u64,
            |sum, (stop, &follower)| sum.wrapping_add(self.way(stop, follower)),
        )
    }

    // The least cost of all plans of so many stops.
    fn least(&self) -> u64 {
        let plans = PLANS[self.count % PLANS.len()];
        (0..plans).fold(FAR, |least, number| least.min(self.cost(plan(number))))
    }
}

// The least cost of all plans of a day of at most five stops.
pub(crate) fn floor(day: Day, legs: &[u32; Road::LEGS]) -> u64 {
    let search = Search {
        square: square(legs),
        cranes: day.cranes,
        count: day.cranes.wrapping_add(day.calls),
        places: array::from_fn(|stop| place(&day, stop)),
    };
    search.least()
}
