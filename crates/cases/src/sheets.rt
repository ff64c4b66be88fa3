// Sheets: what a buffer holds after, no calls, numbers past the counts, and numbers that fill their columns.
use crate::days::{A, BROKEN, Case, LEGS, SHORT};
use crate::{days, line};
use dayfile::Day;
use road::Road;
use std::io;

// Room for the rows of 256 calls.
const ROOM: usize = sheet::ROW * Day::CALLS;

// Writes the sheet of a day into a buffer. Prints its rows from a byte on; the number, the length, and whether the bytes past it are as
// before, 1 or 0.
fn write(
    rt: &impl Print,
    day: Day,
    table: &[u32],
    from: usize,
    buffer: &mut [u8],
) -> io::Result<()> {
    print!(rt; "\n")?;
    let written = sheet::write(day, table, buffer);
    if let Some(rows) = buffer.get(from..written.unwrap_or(0)) {
        rt.write_all(rows)?;
    }
    days::show(rt, written, buffer)
}

// Case A: 11, a buffer that is just long enough, and a longer one; 8 before 11, and alone; 3 by a leg less. Then no calls.
pub(crate) fn buffers(rt: &impl Print) -> io::Result<()> {
    let day = A.day();
    line::begin(rt, 34)?;
    write(rt, day, &LEGS, 0, &mut [7; 83])?;
    write(rt, day, &LEGS, 0, &mut [7; 84])?;
    write(rt, day, &LEGS, 0, &mut [7; 85])?;
    write(rt, day, &BROKEN, 0, &mut [7; 83])?;
    write(rt, day, &BROKEN, 0, &mut [7; 84])?;
    write(rt, day, &SHORT, 0, &mut [7; 84])?;
    line::begin(rt, 35)?;
    let idle = Case { calls: 0, ..A };
    write(rt, idle.day(), &LEGS, 0, &mut [])?;
    write(rt, idle.day(), &LEGS, 0, &mut [7; 85])
}

// The day of case A, with places past its counts that break every rule.
pub(crate) fn past(rt: &impl Print) -> io::Result<()> {
    line::begin(rt, 36)?;
    write(rt, A.day_with(65_535), &LEGS, 0, &mut [7; 85])
}

// The day of one crane that is called back and forth between two places, 256 times.
fn to_and_fro() -> Day {
    let mut requests = [0; Day::CALLS];
    for (i, request) in requests.iter_mut().enumerate() {
        *request = u16::from(i % 2 == 0);
    }
    Day {
        places: 2,
        cranes: 1,
        calls: Day::CALLS,
        starts: [0; Day::CRANES],
        requests,
    }
}

// Call 255, and a drive and a least as wide as their columns. Then a place and a crane of two digits, over 2,016 legs of which all but the last
// have 1,000,000 metres: the last crane drives the last leg.
pub(crate) fn widths(rt: &impl Print) -> io::Result<()> {
    line::begin(rt, 37)?;
    write(
        rt,
        to_and_fro(),
        &[1_000_000],
        sheet::ROW * 255,
        &mut [7; ROOM],
    )?;
    let mut day = Case {
        places: 64,
        cranes: 16,
        calls: 1,
        start: 0,
        call: 0,
    }
    .day();
    day.starts[15] = 62;
    day.requests[0] = 63;
    let mut table = [1_000_000; Road::LEGS];
    table[Road::LEGS - 1] = 10;
    write(rt, day, &table, 0, &mut [7; sheet::ROW])
}
