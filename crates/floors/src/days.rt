// Random days over three tables: one that keeps the triangle rule, and a lower and an upper one about it, which need not.
use crate::draw::Table;
use crate::told::{Floor, Floors};
use crate::{draw, plans};
use base::Refusal;
use dayfile::Day;
use road::Road;
use std::{fmt, io};

// What the library tells of a day: the lower and the upper floor; the floor of the day served over the table in between; and the test of
// the lower table.
#[derive(Clone, Copy)]
struct Told {
    rough: Floors,
    between: Floor,
    table: Result<(), Refusal>,
}

impl Told {
    // What is told of the day of a number.
    fn new(number: u64, day: Day) -> Self {
        let legs = Road::legs(day.places);
        let below = Table::Lower.legs(number, legs);
        let between = Table::Between.legs(number, legs);
        let above = Table::Upper.legs(number, legs);
        let lower = draw::front(&below, legs);
        Self {
            rough: Floors::between(day, lower, draw::front(&above, legs)),
            between: Floor::served(day, draw::front(&between, legs)),
            table: Road::test(day.places, lower),
        }
    }

    // Whether the lower and the upper floor are told, and differ.
    fn is_apart(self) -> bool {
        self.rough
            .0
            .is_ok_and(|floors| floors.lower != floors.upper)
    }

    // Whether all three floors are told, and that in between lies between the other two.
    fn is_ordered(self) -> bool {
        let (Ok(rough), Ok(floor)) = (self.rough.0, self.between.0) else {
            return false;
        };
        rough.lower <= floor && floor <= rough.upper
    }
}

impl fmt::Display for Told {
    fn fmt<W: fmt::Write>(&self, f: &mut fmt::Formatter<W>) -> fmt::Result {
        let Told { rough, between, .. } = self;
        write!(f, "{rough} {between} {}", base::number(self.table))
    }
}

// How many days were tried; how many are right; of how many the lower and the upper floor differ; how many lower tables break the triangle rule.
#[derive(Clone, Copy)]
struct Tally {
    tried: u64,
    right: u64,
    apart: u64,
    broken: u64,
}

impl Tally {
    // None yet.
    const NONE: Tally = Tally {
        tried: 0,
        right: 0,
        apart: 0,
        broken: 0,
    };

    // One day more.
    fn add(self, told: Told, right: bool) -> Self {
        let is_broken = base::number(told.table) == 8;
        Self {
            tried: self.tried.wrapping_add(1),
            right: self.right.wrapping_add(u64::from(right)),
            apart: self.apart.wrapping_add(u64::from(told.is_apart())),
            broken: self.broken.wrapping_add(u64::from(is_broken)),
        }
    }
}

impl fmt::Display for Tally {
    fn fmt<W: fmt::Write>(&self, f: &mut fmt::Formatter<W>) -> fmt::Result {
        let Tally {
            tried,
            right,
            apart,
            broken,
        } = self;
        write!(f, "{tried} {right} {apart} {broken}")
    }
}

// The floor of a small day over one of its tables, by the search through all plans.
fn searched(number: u64, day: Day, table: Table) -> u64 {
    plans::floor(day, &table.legs(number, 6))
}

// One small day more, that of a number: of 2 to 4 places, 1 to 3 cranes, and at most 5 stops.
fn add_small(tally: Tally, number: u64) -> Tally {
    let places = (draw::number(number, 6, 0) % 3) as usize + 2;
    let cranes = (draw::number(number, 6, 1) % 3) as usize + 1;
    let calls = usize::from(draw::below(draw::number(number, 6, 2), 6 - cranes));
    let day = draw::day(number, places, cranes, calls);
    let told = Told::new(number, day);
    let is_between = told.between.0 == Ok(searched(number, day, Table::Between));
    let is_right = told.rough.0.is_ok_and(|floors| {
        is_between
            && floors.lower == searched(number, day, Table::Lower)
            && floors.upper == searched(number, day, Table::Upper)
    });
    tally.add(told, is_right)
}

// One random day more, that of a number: of 3 to 6 places, 1 to 4 cranes and 1 to 12 calls.
fn add_random(tally: Tally, number: u64) -> Tally {
    let places = (draw::number(number, 6, 0) % 4) as usize + 3;
    let cranes = (draw::number(number, 6, 1) % 4) as usize + 1;
    let calls = (draw::number(number, 6, 2) % 12) as usize + 1;
    let told = Told::new(number, draw::day(number, places, cranes, calls));
    tally.add(told, told.is_ordered())
}

// Small days, whose floors the search finds too; then random ones, the floor over the table in between beside the other two.
pub(crate) fn each(rt: &impl Print) -> io::Result<()> {
    println!(rt;
        "small days; floors as by all plans; lower and upper floor differ; lower tables that break the triangle rule: {}",
        (0..4_000).fold(Tally::NONE, add_small)
    )?;
    println!(rt;
        "random days; floor in between; lower and upper floor differ; lower tables that break the triangle rule: {}",
        (0..1_000).fold(Tally::NONE, add_random)
    )
}

// The day of 64 places, 16 cranes and 256 calls.
pub(crate) fn full(rt: &impl Print) -> io::Result<()> {
    println!(rt;
        "a full day, number, lower and upper floor; number and floor over the table in between; number of the lower table: {}",
        Told::new(0, draw::day(0, 64, 16, 256))
    )
}
