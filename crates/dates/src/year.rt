// Windows beside a walk through a leap year, round its end: a day is inside if the walk from the first day meets it no later than the last.
use crate::{count, named};
use season::{Date, MonthDay, Window};
use std::io;

// 1 January of 2024, counted from 1 March of the year 0.
const LEAP: u64 = 739_191;

// 1 January of 2023.
const COMMON: u64 = 738_826;

// How many windows are tried.
const WINDOWS: u64 = 4_453;

// A window by two days of a leap year, from 0 on.
#[derive(Clone, Copy)]
struct Walk {
    first: u64,
    last: u64,
}

// The month and day of a day of a leap year.
fn month_day(index: u64) -> MonthDay {
    let date = count::date(LEAP.wrapping_add(index));
    MonthDay {
        month: date.month,
        day: date.day,
    }
}

impl Walk {
    // The walk of a number: every fifth day is a first, for each every sixth a last, and 29 February is both.
    fn new(number: u64) -> Self {
        Self {
            first: number / 61 % 73 * 5 + 4,
            last: number % 61 * 6 + 5,
        }
    }

    // How far the walk from the first day to another goes.
    fn steps(self, to: u64) -> u64 {
        if self.first <= to {
            return to - self.first;
        }
        to.wrapping_add(366).wrapping_sub(self.first)
    }

    // Whether the table of a date is the right one; the date is that day of a leap year.
    fn is_right(self, index: u64, date: Date) -> bool {
        let window = Window {
            first: month_day(self.first),
            last: month_day(self.last),
        };
        let is_inside = self.steps(index) <= self.steps(self.last);
        named::leg(window, date) == if is_inside { 12 } else { 10 }
    }

    // Whether the table is right on this day of 2024.
    fn is_right_in_leap(self, index: u64) -> bool {
        self.is_right(index, count::date(LEAP.wrapping_add(index)))
    }

    // The same of 2023, which has no day 59, 29 February, and has the days after it one number earlier.
    fn is_right_in_common(self, index: u64) -> bool {
        let earlier = index.wrapping_sub(u64::from(59 < index));
        index != 59 && self.is_right(index, count::date(COMMON.wrapping_add(earlier)))
    }

    // How many dates of the two years have the right table.
    fn right(self) -> usize {
        let leap = (0..366)
            .filter(|&index| self.is_right_in_leap(index))
            .count();
        let common = (0..366)
            .filter(|&index| self.is_right_in_common(index))
            .count();
        leap.wrapping_add(common)
    }
}

// Prints how many windows there are, and how many dates have the right table.
pub(crate) fn windows(rt: &impl Print) -> io::Result<()> {
    let right = (0..WINDOWS)
        .map(Walk::new)
        .fold(0usize, |sum, walk| sum.wrapping_add(walk.right()));
    println!(rt; "windows; dates that have the right table, of 731 each: {WINDOWS} {right}")
}
