// Dates by a count of days. A year is counted from 1 March, so that a leap day is the last of its year: four centuries have 146,097 days, and the
// first days of the months lie 153 in five months apart.
use season::{Date, MonthDay, Window};
use std::io;

// 28 February 1582, counted from 1 March of the year 0.
const BEFORE: u64 = 577_812;

// 1 March 1582.
const FIRST: u64 = 577_813;

// 1 March 10000, the day after the last.
const END: u64 = 3_652_425;

// The window of 1 January alone.
const NEW_YEAR: Window = Window {
    first: MonthDay { month: 1, day: 1 },
    last: MonthDay { month: 1, day: 1 },
};

// The date of a day by its number, 1 March of the year 0 having 0: its cycle of four centuries, the years from March to March in it, the day in
// the year, and the months from March on.
pub(crate) fn date(serial: u64) -> Date {
    let cycle = serial / 146_097;
    let rest = serial % 146_097;
    let years = (rest - rest / 1_460 + rest / 36_524 - rest / 146_096) / 365 % 400;
    let before = 365 * years + years / 4 - years / 100;
    let day = rest.wrapping_sub(before) % 366;
    let months = (5 * day + 2) / 153;
    let rest_day = day.wrapping_sub((153 * months + 2) / 5) % 31;
    let year = 400 * (cycle % 100) + years + months / 10;
    Date {
        year: (year % 65_536) as u16,
        month: ((months + 2) % 12 + 1) as u8,
        day: (rest_day + 1) as u8,
    }
}

// The number of a date, over one place.
fn tested(date: Date) -> u8 {
    base::number(season::test(1, &[], &[], NEW_YEAR, date))
}

// The number that a real date should have.
fn expected(date: Date) -> u8 {
    if (1_583..=9_999).contains(&date.year) {
        0
    } else {
        14
    }
}

// Whether a date is later than another; not by the order that `season` gives dates.
fn is_later(at: Date, before: Date) -> bool {
    (before.year, before.month, before.day) < (at.year, at.month, at.day)
}

// How many days there are up to a date, how many of them are told by the right number, and how many are later than the day before.
#[derive(Clone, Copy)]
struct Counted {
    days: usize,
    right: usize,
    ascending: usize,
    last: Date,
}

impl Counted {
    // One day more.
    fn add(self, at: Date) -> Self {
        let is_right = tested(at) == expected(at);
        Self {
            days: self.days.wrapping_add(1),
            right: self.right.wrapping_add(usize::from(is_right)),
            ascending: self
                .ascending
                .wrapping_add(usize::from(is_later(at, self.last))),
            last: at,
        }
    }

    // All days.
    fn all() -> Self {
        let none = Self {
            days: 0,
            right: 0,
            ascending: 0,
            last: date(BEFORE),
        };
        (FIRST..END)
            .map(date)
            .fold(none, |counted, at| counted.add(at))
    }
}

// How many dates of a year are accepted, of the months 0 to 15 and of the days 0 to 63.
fn accepted_of(year: u16) -> usize {
    (0u64..1_024)
        .map(|i| Date {
            year,
            month: (i / 64 % 16) as u8,
            day: (i % 64) as u8,
        })
        .filter(|&date| tested(date) == 0)
        .count()
}

// How many of them are accepted of the years 1500 to 10099.
fn accepted() -> usize {
    (1_500..10_100)
        .map(accepted_of)
        .fold(0usize, |sum, year| sum.wrapping_add(year))
}

// How many days the years 1583 to 9999 have by the count.
fn days() -> usize {
    (FIRST..END)
        .map(date)
        .filter(|&at| expected(at) == 0)
        .count()
}

// Prints of all days how many are told rightly, and of all dates how many are accepted.
pub(crate) fn each(rt: &impl Print) -> io::Result<()> {
    let counted = Counted::all();
    println!(rt;
        "days from 1 March 1582 to 29 February 10000; told by the right number; later than the day before: {} {} {}",
        counted.days, counted.right, counted.ascending
    )?;
    println!(rt;
        "dates accepted, of the years 1500 to 10099, months 0 to 15, days 0 to 63; days of 1583 to 9999 by the count: {} {}",
        accepted(),
        days()
    )
}
