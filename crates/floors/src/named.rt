// Paper 11's cases by name, and the refusals in the order of the tests: for each the number, the lower floor and the upper floor.
use crate::draw;
use crate::told::{Floor, Floors};
use dayfile::Day;
use std::{fmt, io};

// The legs of three places.
type Legs = [u32; 3];

// The legs of case A.
const EXACT: Legs = [10, 20, 15];

// What they are at least and at most.
const LOWER: Legs = [8, 18, 12];

const UPPER: Legs = [12, 22, 18];

// Legs that break the triangle rule.
const DETOUR: Legs = [1, 26, 1];

// No place.
const NO_PLACE: u16 = 65_535;

// One more than the most metres.
const FAR: u32 = 1_000_001;

// A day with starts at 0 and `start` and calls at 1, 0 and `last`, as far as the counts go, and `rest` in every entry past them.
#[derive(Clone, Copy)]
struct Case {
    places: usize,
    cranes: usize,
    calls: usize,
    start: u16,
    last: u16,
    rest: u16,
}

// Case A.
const A: Case = Case {
    places: 3,
    cranes: 2,
    calls: 3,
    start: 2,
    last: 1,
    rest: 0,
};

impl Case {
    fn day(self) -> Day {
        let mut starts = [self.rest; Day::CRANES];
        starts[0] = 0;
        starts[1] = self.start;
        let mut requests = [self.rest; Day::CALLS];
        requests[0] = 1;
        requests[1] = 0;
        requests[2] = self.last;
        Day {
            places: self.places,
            cranes: self.cranes,
            calls: self.calls,
            starts,
            requests,
        }
    }

    // What is told of the day between two tables of three legs.
    fn between(self, lower: Legs, upper: Legs) -> Floors {
        Floors::between(self.day(), &lower, &upper)
    }
}

// One crane at place 0, and one call.
fn one(places: usize, call: u16) -> Day {
    let mut requests = [0; Day::CALLS];
    requests[0] = call;
    Day {
        places,
        cranes: 1,
        calls: 1,
        starts: [0; Day::CRANES],
        requests,
    }
}

// What is told of case A between two tables.
fn tables(lower: Legs, upper: Legs) -> Floors {
    A.between(lower, upper)
}

// The same with other counts.
fn counts(cranes: usize, calls: usize, upper: Legs) -> Floors {
    Case { cranes, calls, ..A }.between(LOWER, upper)
}

// The same with its second start and its last call elsewhere.
fn stops(start: u16, last: u16, lower: Legs) -> Floors {
    Case { start, last, ..A }.between(lower, UPPER)
}

// What is told of one call over so many legs of 0 metres each.
fn lengths(places: usize, cranes: usize, lower: usize, upper: usize) -> Floors {
    let legs = [0; 2_080];
    let day = Case {
        places,
        cranes,
        calls: 1,
        start: 0,
        last: 0,
        rest: 0,
    }
    .day();
    Floors::between(day, draw::front(&legs, lower), draw::front(&legs, upper))
}

// The floor of the plans of case A over one table, and of the day served.
#[derive(Clone, Copy)]
struct Both {
    plans: Floor,
    served: Floor,
}

impl Both {
    fn over(legs: Legs) -> Self {
        Self {
            plans: Floor::of_plans(A.day(), &legs),
            served: Floor::served(A.day(), &legs),
        }
    }
}

impl fmt::Display for Both {
    fn fmt<W: fmt::Write>(&self, f: &mut fmt::Formatter<W>) -> fmt::Result {
        let Both { plans, served } = self;
        write!(f, "{plans} {served}")
    }
}

// Case A over legs known roughly, known exactly, not known from below, and without the triangle rule.
fn floors(rt: &impl Print) -> io::Result<()> {
    println!(rt;
        "case A between 8 18 12 and 12 22 18: {}",
        tables(LOWER, UPPER)
    )?;
    println!(rt;
        "case A between 10 20 15 and the same; between 0 0 0 and 10 20 15: {} {}",
        tables(EXACT, EXACT),
        tables([0; 3], EXACT)
    )?;
    println!(rt;
        "case A between 1 26 1 and 10 40 2, which break the triangle rule: {}",
        tables(DETOUR, [10, 40, 2])
    )
}

// A detour, one place, and no call.
fn edges(rt: &impl Print) -> io::Result<()> {
    println!(rt;
        "from 0 to 2 and back over 1 10 1: a detour is no leg: {}",
        Floors::between(one(3, 2), &[1, 10, 1], &[1, 10, 1])
    )?;
    println!(rt;
        "one place; two cranes without a call: {} {}",
        Floors::between(one(1, 0), &[], &[]),
        counts(2, 0, UPPER)
    )
}

// One table: the floor of the plans beside that of the day served, which is refused where the table breaks the triangle rule.
fn plans(rt: &impl Print) -> io::Result<()> {
    println!(rt;
        "plans of case A, and the day served, over 10 20 15; over 12 22 18; over 1 26 1: {} {} {}",
        Both::over(EXACT),
        Both::over(UPPER),
        Both::over(DETOUR)
    )
}

// Entries past the counts.
fn past(rt: &impl Print) -> io::Result<()> {
    let spoiled = Case {
        rest: NO_PLACE,
        ..A
    };
    let shorter = Case {
        calls: 2,
        last: NO_PLACE,
        ..spoiled
    };
    println!(rt;
        "no place past the counts: case A; without its last call; the same with places; plans: {} {} {} {}",
        spoiled.between(LOWER, UPPER),
        shorter.between(LOWER, UPPER),
        counts(2, 2, UPPER),
        Floor::of_plans(shorter.day(), &UPPER)
    )
}

// The cases.
pub(crate) fn cases(rt: &impl Print) -> io::Result<()> {
    floors(rt)?;
    edges(rt)?;
    plans(rt)?;
    past(rt)
}

fn order(rt: &impl Print) -> io::Result<()> {
    println!(rt;
        "3: 0 and 65 places; the lower table shorter, longer; the upper; each before 6: {} {} {} {} {} {} {} {}",
        lengths(0, 2, 0, 0),
        lengths(65, 2, 2_080, 2_080),
        lengths(3, 2, 2, 3),
        lengths(3, 2, 4, 3),
        lengths(3, 2, 3, 2),
        lengths(3, 2, 3, 4),
        lengths(3, 0, 2, 3),
        lengths(3, 0, 3, 2)
    )
}

fn cranes(rt: &impl Print) -> io::Result<()> {
    println!(rt;
        "6: 0 cranes; 17 cranes; before 7; 7: 257 calls; before 4: {} {} {} {} {}",
        counts(0, 3, UPPER),
        counts(17, 3, UPPER),
        counts(17, 257, UPPER),
        counts(2, 257, UPPER),
        counts(2, 257, [12, 22, FAR])
    )
}

fn metres(rt: &impl Print) -> io::Result<()> {
    println!(rt;
        "4: the lower table; the upper; each before 15; 1000000 is accepted: {} {} {} {} {}",
        tables([8, 18, FAR], [12, 22, FAR]),
        tables(LOWER, [12, 22, FAR]),
        tables([13, FAR, 12], UPPER),
        tables([13, 18, 12], [12, 22, FAR]),
        tables([1_000_000; 3], [1_000_000; 3])
    )
}

fn bounds(rt: &impl Print) -> io::Result<()> {
    println!(rt;
        "15: the first leg; the second; the last; before 5; 5: a start; a call: {} {} {} {} {} {}",
        tables([13, 18, 12], UPPER),
        tables([8, 23, 12], UPPER),
        tables([8, 18, 19], UPPER),
        stops(3, 3, [8, 18, 19]),
        stops(3, 1, LOWER),
        stops(2, 3, LOWER)
    )
}

fn triangles(rt: &impl Print) -> io::Result<()> {
    println!(rt;
        "no 8: the lower table breaks the triangle rule; the upper; both: {} {} {}",
        tables([8, 21, 12], UPPER),
        tables(LOWER, [12, 31, 18]),
        tables([8, 21, 12], [12, 31, 18])
    )
}

// The plans of a day whose second start is no place, with other counts, over the first legs of three.
fn refused(legs: usize, third: u32, cranes: usize, calls: usize) -> Floor {
    let table = [10, 20, third];
    let day = Case {
        cranes,
        calls,
        start: 3,
        ..A
    }
    .day();
    Floor::of_plans(day, draw::front(&table, legs))
}

fn plans_refused(rt: &impl Print) -> io::Result<()> {
    println!(rt;
        "plans: 3 before 6; 6 before 7; 7 before 4; 4 before 5; 5: {} {} {} {} {}",
        refused(2, FAR, 0, 257),
        refused(3, FAR, 0, 257),
        refused(3, FAR, 2, 257),
        refused(3, FAR, 2, 3),
        refused(3, 15, 2, 3)
    )
}

// The refusals.
pub(crate) fn refusals(rt: &impl Print) -> io::Result<()> {
    order(rt)?;
    cranes(rt)?;
    metres(rt)?;
    bounds(rt)?;
    triangles(rt)?;
    plans_refused(rt)
}
