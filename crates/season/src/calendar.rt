// The Gregorian calendar: leap years, the days of the months, and the test of a date and of a window's edges.
ghost use Rattle.std.specs.Prelude.{◌≡◌};
ghost use Rattle.base.specs.Numbers.{number_of};
ghost use Rattle.season.specs.Calendar.{leap_year, month_days, real_day, date_rule, edges_rule, calendar_refusal};

use crate::{Date, MonthDay, Window};
use base::Refusal;

// Whether a year is a leap year.
#[tactic(auto, unfolding(crate::specs::Calendar::leap_year))]
fn is_leap(year: u16) -> bool
    ensures { result ≡ leap_year year }
{
    year % 4 == 0 && (year % 100 != 0 || year % 400 == 0)
}

// The days of a month, in a leap year or not; 0 for a number that is no month, and no Option, by the definition `month_days`.
#[tactic(auto, unfolding(crate::specs::Calendar::month_days))]
fn month_days(leap: bool, month: u8) -> u8
    ensures { result ≡ month_days leap month }
{
    match month {
        1 | 3 | 5 | 7 | 8 | 10 | 12 => 31,
        4 | 6 | 9 | 11 => 30,
        2 if leap => 29,
        2 => 28,
        _ => 0,
    }
}

// Whether a leap year, or a common one, has this month and day.
#[tactic(auto, unfolding(crate::specs::Calendar::real_day, base::specs::Tests::within))]
fn is_real(leap: bool, at: MonthDay) -> bool
    ensures { result ≡ real_day leap at }
{
    (1..=month_days(leap, at.month)).contains(&at.day)
}

// Whether a date is real and of the years that count.
#[tactic(auto, unfolding(crate::specs::Calendar::date_rule, base::specs::Tests::within))]
fn is_date(date: Date) -> bool
    ensures { result ≡ date_rule date }
{
    (Date::FIRST_YEAR..=Date::LAST_YEAR).contains(&date.year)
        && is_real(is_leap(date.year), date.into())
}

// Whether both edges of a window are real, in a leap year.
fn has_edges(window: Window) -> bool
    ensures { result ≡ edges_rule window }
{
    is_real(true, window.first) && is_real(true, window.last)
}

// 14 unless the date is real and so are both edges of the window.
pub(crate) fn test(window: Window, date: Date) -> Result<(), Refusal>
    ensures { number_of result ≡ calendar_refusal window date }
{
    if is_date(date) && has_edges(window) {
        return Ok(());
    }
    Err(Refusal::Date)
}
