// The table of a day, out of an ordinary and a thaw table: which of the two a date has, by a window of months and days, with refusal 14.
// Stands on `base` and `road`.
//
// A book keeps no note of its table: to lend it the same legs all day, those of the date on which it was opened, is the caller's part.
#![tactic(auto)]

mod calendar;
mod tables;
mod windows;

ghost use Rattle.std.specs.Prelude.{◌≡◌};
ghost use Rattle.base.specs.Numbers.{number_of};
ghost use Rattle.season.specs.Calendar.{day_of};
ghost use Rattle.season.specs.Season.{season_refusal, legs_on};

use base::Refusal;

// A month and a day of it, in any year; the order is by month, then by day.
#[derive(Clone, Copy, PartialEq, Eq, PartialOrd, Ord)]
pub struct MonthDay {
    pub month: u8,
    pub day: u8,
}

// The days of every year from the first to the last, both inside; over the year's end where the first is later than the last.
#[derive(Clone, Copy)]
pub struct Window {
    pub first: MonthDay,
    pub last: MonthDay,
}

// A day of the Gregorian calendar.
#[derive(Clone, Copy, PartialEq, Eq, PartialOrd, Ord)]
pub struct Date {
    pub year: u16,
    pub month: u8,
    pub day: u8,
}

impl Date {
    // The first year whose dates count.
    pub const FIRST_YEAR: u16 = 1_583;

    // The last year whose dates count.
    pub const LAST_YEAR: u16 = 9_999;
}

// The month and the day of a date.
impl From<Date> for MonthDay {
    ghost from_gives = { λ date at. at ≡ day_of date };

    fn from(date: Date) -> MonthDay {
        MonthDay {
            month: date.month,
            day: date.day,
        }
    }
}

// The test of what the legs of a date are chosen from: 14 for the date and the window's edges, then 3, 4 and 8 for the ordinary table, then
// for the thaw table. It alone tells a refusal from a table of one place, which has no legs. Put into its callers, as what it calls, so that the
// tests of constant tables are worked out before the program runs.
#[tactic(auto, using(base::proofs::Numbers::handing))]
#[inline(always)]
pub fn test(
    places: usize,
    ordinary: &[u32],
    thaw: &[u32],
    window: Window,
    date: Date,
) -> Result<(), Refusal>
    ensures { number_of result ≡ season_refusal places ordinary.now thaw.now window date }
{
    calendar::test(window, date)?;
    tables::test(places, ordinary, thaw)
}

// The legs of a date: the lent thaw table itself where the date is inside the window, else the lent ordinary table itself; an empty part of
// the ordinary one where the test refuses. A book keeps no note of its legs: to lend it the same all day is the caller's part.
#[tactic(auto, unfolding(crate::specs::Season::legs_on))]
pub fn legs<'a>(
    places: usize,
    ordinary: &'a [u32],
    thaw: &'a [u32],
    window: Window,
    date: Date,
) -> &'a [u32]
    ensures { result ≡ legs_on places ordinary.entry thaw.entry window date }
{
    // No Result: by `legs_on` a refusal comes back as an empty part, and `test` alone tells the refusal.
    match test(places, ordinary, thaw, window, date) {
        Ok(()) if windows::inside(window, date.into()) => thaw,
        Ok(()) => ordinary,
        Err(_) => &ordinary[..0],
    }
}
