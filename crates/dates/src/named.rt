// Paper 10's cases by name: dates, edges, windows, and the order of the tests.
use base::Refusal;
use season::{Date, MonthDay, Window};
use std::{fmt, io};

// 29 February.
const LEAP_DAY: MonthDay = MonthDay { month: 2, day: 29 };

// 1 March to 31 May.
pub(crate) const SPRING: Window = Window {
    first: MonthDay { month: 3, day: 1 },
    last: MonthDay { month: 5, day: 31 },
};

// 20 December to 10 January.
const MIDWINTER: Window = Window {
    first: MonthDay { month: 12, day: 20 },
    last: MonthDay { month: 1, day: 10 },
};

// 29 February to 1 March.
const TO_MARCH: Window = Window {
    first: LEAP_DAY,
    last: MonthDay { month: 3, day: 1 },
};

// 29 February.
const LEAP_DAY_ALONE: Window = Window {
    first: LEAP_DAY,
    last: LEAP_DAY,
};

// A date.
pub(crate) fn date(day: u8, month: u8, year: u16) -> Date {
    Date { year, month, day }
}

// The number of a date, over one place.
fn tested(day: u8, month: u8, year: u16) -> u8 {
    base::number(season::test(1, &[], &[], SPRING, date(day, month, year)))
}

// Leap years, days and months that are not, and the years that count.
pub(crate) fn dates(rt: &impl Print) -> io::Result<()> {
    println!(rt;
        "29 February of 2024, 2023, 1900 and 2000: {} {} {} {}",
        tested(29, 2, 2_024),
        tested(29, 2, 2_023),
        tested(29, 2, 1_900),
        tested(29, 2, 2_000)
    )?;
    println!(rt;
        "31 April; day 0; months 0 and 13; the highest numbers: {} {} {} {} {}",
        tested(31, 4, 2_024),
        tested(0, 4, 2_024),
        tested(1, 0, 2_024),
        tested(1, 13, 2_024),
        tested(255, 255, 65_535)
    )?;
    println!(rt;
        "31 December of 1582, 1 January of 1583; 31 December of 9999, 1 January of 10000: {} {} {} {}",
        tested(31, 12, 1_582),
        tested(1, 1, 1_583),
        tested(31, 12, 9_999),
        tested(1, 1, 10_000)
    )
}

// The tests with a day as the first of a window, and with it as the last, in a common year. They print as their numbers.
#[derive(Clone, Copy)]
struct Edge {
    first: Result<(), Refusal>,
    last: Result<(), Refusal>,
}

impl Edge {
    fn of(day: u8, month: u8) -> Self {
        let edge = MonthDay { month, day };
        let from = Window {
            first: edge,
            ..SPRING
        };
        let until = Window {
            last: edge,
            ..SPRING
        };
        Self {
            first: season::test(1, &[], &[], from, date(1, 1, 2_023)),
            last: season::test(1, &[], &[], until, date(1, 1, 2_023)),
        }
    }
}

impl fmt::Display for Edge {
    fn fmt<W: fmt::Write>(&self, f: &mut fmt::Formatter<W>) -> fmt::Result {
        let Edge { first, last } = *self;
        write!(f, "{} {}", base::number(first), base::number(last))
    }
}

// The leg of the table that comes back, 10 of the ordinary and 12 of the thaw table; 0 where none does.
pub(crate) fn leg(window: Window, date: Date) -> u32 {
    season::legs(2, &[10], &[12], window, date)
        .first()
        .copied()
        .unwrap_or(0)
}

// The leg on a date.
fn leg_on(window: Window, day: u8, month: u8, year: u16) -> u32 {
    leg(window, date(day, month, year))
}

// Edges of windows; windows over the year's end, and with 29 February as an edge.
pub(crate) fn windows(rt: &impl Print) -> io::Result<()> {
    println!(rt;
        "edges, as the first and as the last: 29 February, 30 February, 31 April, day 0, months 0 and 13: {} {} {} {} {} {}",
        Edge::of(29, 2),
        Edge::of(30, 2),
        Edge::of(31, 4),
        Edge::of(0, 1),
        Edge::of(1, 0),
        Edge::of(1, 13)
    )?;
    println!(rt;
        "20 December to 10 January: 19, 20 and 31 December, 1, 10 and 11 January: {} {} {} {} {} {}",
        leg_on(MIDWINTER, 19, 12, 2_025),
        leg_on(MIDWINTER, 20, 12, 2_025),
        leg_on(MIDWINTER, 31, 12, 2_025),
        leg_on(MIDWINTER, 1, 1, 2_026),
        leg_on(MIDWINTER, 10, 1, 2_026),
        leg_on(MIDWINTER, 11, 1, 2_026)
    )?;
    println!(rt;
        "29 February to 1 March: 28 February, 1 and 2 March of 2023; 29 February of 2024: {} {} {} {}",
        leg_on(TO_MARCH, 28, 2, 2_023),
        leg_on(TO_MARCH, 1, 3, 2_023),
        leg_on(TO_MARCH, 2, 3, 2_023),
        leg_on(TO_MARCH, 29, 2, 2_024)
    )?;
    println!(rt;
        "29 February alone: 28 February and 1 March of 2023; 28 and 29 February and 1 March of 2024; 29 February of 2023: {} {} {} {} {} {}",
        leg_on(LEAP_DAY_ALONE, 28, 2, 2_023),
        leg_on(LEAP_DAY_ALONE, 1, 3, 2_023),
        leg_on(LEAP_DAY_ALONE, 28, 2, 2_024),
        leg_on(LEAP_DAY_ALONE, 29, 2, 2_024),
        leg_on(LEAP_DAY_ALONE, 1, 3, 2_024),
        leg_on(LEAP_DAY_ALONE, 29, 2, 2_023)
    )
}

// The test of two tables on a day of April, which prints as its number, and how many legs come back: one place has none, refused or not.
#[derive(Clone, Copy)]
struct Tables {
    tested: Result<(), Refusal>,
    legs: usize,
}

impl Tables {
    fn on<'a>(day: u8, places: usize, ordinary: &'a [u32], thaw: &'a [u32]) -> Self {
        let date = date(day, 4, 2_026);
        Self {
            tested: season::test(places, ordinary, thaw, SPRING, date),
            legs: season::legs(places, ordinary, thaw, SPRING, date).len(),
        }
    }
}

impl fmt::Display for Tables {
    fn fmt<W: fmt::Write>(&self, f: &mut fmt::Formatter<W>) -> fmt::Result {
        let Tables { tested, legs } = *self;
        write!(f, "{} {legs}", base::number(tested))
    }
}

// The order of the tests. One place has no legs, accepted or not.
pub(crate) fn tests(rt: &impl Print) -> io::Result<()> {
    println!(rt;
        "one place, on 1 April and on 31 April; three places: {} {} {}",
        Tables::on(1, 1, &[], &[]),
        Tables::on(31, 1, &[], &[]),
        Tables::on(1, 3, &[10, 20, 15], &[12, 22, 18])
    )?;
    println!(rt;
        "14 before 3, 4 and 8: {} {} {} {}",
        Tables::on(31, 0, &[], &[]),
        Tables::on(31, 3, &[10, 20], &[12, 22]),
        Tables::on(31, 3, &[10, 1_000_001, 15], &[12, 22, 18]),
        Tables::on(31, 3, &[10, 26, 15], &[12, 22, 18])
    )?;
    println!(rt;
        "the ordinary table's 3, 4 and 8 before the thaw table's 8, 3 and 3: {} {} {}",
        Tables::on(1, 3, &[10, 20], &[12, 36, 18]),
        Tables::on(1, 3, &[10, 1_000_001, 15], &[12, 22]),
        Tables::on(1, 3, &[10, 26, 15], &[12, 22])
    )?;
    println!(rt;
        "the thaw table's 3, shorter and longer, 4 and 8: {} {} {} {}",
        Tables::on(1, 3, &[10, 20, 15], &[12, 22]),
        Tables::on(1, 3, &[10, 20, 15], &[12, 22, 18, 0]),
        Tables::on(1, 3, &[10, 20, 15], &[12, 1_000_001, 18]),
        Tables::on(1, 3, &[10, 20, 15], &[12, 36, 18])
    )
}
