// A day served on the legs that come back, beside the same day served on each of the two tables.
use crate::named;
use base::Refusal;
use dayfile::Day;
use dispatch::{Dispatch, ServedDay};
use std::{fmt, io};

// The day of case A.
fn day_a() -> Day {
    let mut starts = [0; Day::CRANES];
    starts[1] = 2;
    let mut requests = [0; Day::CALLS];
    requests[0] = 1;
    requests[2] = 1;
    Day {
        places: 3,
        cranes: 2,
        calls: 3,
        starts,
        requests,
    }
}

// What is told of the day. It prints as the number of the refusal, or 0, and its drive, way home and floor, 0 where it is refused.
#[derive(Clone, Copy)]
struct Served(Result<ServedDay, Refusal>);

impl fmt::Display for Served {
    fn fmt<W: fmt::Write>(&self, f: &mut fmt::Formatter<W>) -> fmt::Result {
        let (driven, home, floor) = self
            .0
            .map_or((0, 0, 0), |day| (day.driven, day.home, day.floor));
        write!(f, "{} {driven} {home} {floor}", base::number(self.0))
    }
}

// The day over a table.
fn serve(legs: &[u32]) -> Served {
    Served(Dispatch::serve_day(day_a(), legs))
}

// The same on the legs of the first day of a month, the window being that of March to May.
fn on_day<'a>(ordinary: &'a [u32], thaw: &'a [u32], month: u8) -> Served {
    serve(season::legs(
        3,
        ordinary,
        thaw,
        named::SPRING,
        named::date(1, month, 2_026),
    ))
}

// Days inside the window and outside.
pub(crate) fn days<'a>(rt: &impl Print, ordinary: &'a [u32], thaw: &'a [u32]) -> io::Result<()> {
    println!(rt;
        "case A served in May; over the thaw table: {} {}",
        on_day(ordinary, thaw, 5),
        serve(thaw)
    )?;
    println!(rt;
        "case A served in June; over the ordinary table; in month 13: {} {} {}",
        on_day(ordinary, thaw, 6),
        serve(ordinary),
        on_day(ordinary, thaw, 13)
    )
}
