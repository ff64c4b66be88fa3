// Days in memory: each refusal, runs that are too short or too long, and the order 3, 6, 7, 4, 5, 8, told alike by all that take a day; then
// 11, and what a buffer holds after.
use crate::line;
use base::Refusal;
use book::Book;
use dayfile::Day;
use dispatch::Dispatch;
use std::io;

// The legs of case A, three that break the triangle rule, and two for three places.
pub(crate) const LEGS: [u32; 3] = [10, 20, 15];

pub(crate) const BROKEN: [u32; 3] = [10, 26, 15];

pub(crate) const SHORT: [u32; 2] = [10, 20];

// The day of case A with other counts, another start of the second crane and another place of the last call.
#[derive(Clone, Copy)]
pub struct Case {
    pub places: usize,
    pub cranes: usize,
    pub calls: usize,
    pub start: u16,
    pub call: u16,
}

// Case A itself.
pub(crate) const A: Case = Case {
    places: 3,
    cranes: 2,
    calls: 3,
    start: 2,
    call: 1,
};

impl Case {
    // The day, with a place at every entry past those of case A.
    pub(crate) fn day_with(self, rest: u16) -> Day {
        let mut starts = [rest; Day::CRANES];
        starts[0] = 0;
        starts[1] = self.start;
        let mut requests = [rest; Day::CALLS];
        requests[0] = 1;
        requests[1] = 0;
        requests[2] = self.call;
        Day {
            places: self.places,
            cranes: self.cranes,
            calls: self.calls,
            starts,
            requests,
        }
    }

    // The day, with 0 at those entries.
    pub(crate) fn day(self) -> Day {
        self.day_with(0)
    }
}

// A day without calls, everyone at place 0; the first entry past its calls is place 1.
pub(crate) fn idle(places: usize, cranes: usize) -> Day {
    Case {
        places,
        cranes,
        calls: 0,
        start: 0,
        call: 0,
    }
    .day()
}

// Prints of what was written into a buffer of sevens the number, the length, and whether the bytes past it are as before, 1 or 0.
pub(crate) fn show(
    rt: &impl Print,
    written: Result<usize, Refusal>,
    buffer: &[u8],
) -> io::Result<()> {
    let length = written.unwrap_or(0);
    print!(rt;
        " {} {length} {}",
        base::number(written),
        u8::from(line::rest_is(7, buffer, length))
    )
}

// Writes a day into a buffer.
fn write(rt: &impl Print, day: Day, table: &[u32], buffer: &mut [u8]) -> io::Result<()> {
    let written = day.write(table, buffer);
    show(rt, written, buffer)?;
    print!(rt; ",")
}

// The numbers that the test of a day gives, the opening of its book, serving it, its sheet into no room, and writing it into no room.
fn tell(rt: &impl Print, day: Day, table: &[u32]) -> io::Result<()> {
    let tested = base::number(day.test(table));
    let opened = base::number(Book::fresh(day, table));
    let served = base::number(Dispatch::serve_day(day, table));
    let posted = base::number(sheet::write(day, table, &mut []));
    print!(rt; " {tested} {opened} {served} {posted}")?;
    write(rt, day, table, &mut [])
}

// The same of the day of a case, by three legs.
fn take(rt: &impl Print, case: Case, second: u32) -> io::Result<()> {
    tell(rt, case.day(), &[10, second, 15])
}

// Case A, and each number alone; 8 again, where a way by a leg of 0 metres is shorter. Then one place, three and 64: with their legs, with
// more, and with less.
pub(crate) fn each(rt: &impl Print) -> io::Result<()> {
    line::begin(rt, 16)?;
    take(rt, A, 20)?;
    take(rt, Case { places: 65, ..A }, 20)?;
    take(rt, Case { cranes: 0, ..A }, 20)?;
    take(rt, Case { cranes: 17, ..A }, 20)?;
    take(rt, Case { calls: 257, ..A }, 20)?;
    take(rt, A, 1_000_001)?;
    take(rt, Case { start: 3, ..A }, 20)?;
    take(rt, Case { call: 3, ..A }, 20)?;
    take(rt, A, 26)?;
    take(rt, A, 0)?;
    tell(rt, idle(1, 2), &[])?;
    tell(rt, idle(1, 2), &[7])?;
    tell(rt, idle(3, 2), &[7; 2])?;
    tell(rt, idle(3, 2), &[7; 4])?;
    tell(rt, idle(64, 2), &[7; 2_016])?;
    tell(rt, idle(64, 2), &[7; 2_015])
}

// 3 before 6, of the places and of a run that is too short or too long for three; 6 before 7, 7 before 4, 4 before 5, 5 before 8. Then 11,
// 8 before it, a buffer that is just long enough, and a longer one.
pub(crate) fn order(rt: &impl Print) -> io::Result<()> {
    line::begin(rt, 17)?;
    tell(rt, idle(0, 0), &[])?;
    tell(rt, idle(3, 0), &[7; 2])?;
    tell(rt, idle(3, 17), &[7; 4])?;
    take(
        rt,
        Case {
            cranes: 17,
            calls: 257,
            ..A
        },
        20,
    )?;
    take(rt, Case { calls: 257, ..A }, 1_000_001)?;
    take(rt, Case { start: 3, ..A }, 1_000_001)?;
    take(rt, Case { call: 3, ..A }, 26)?;
    line::begin(rt, 18)?;
    write(rt, A.day(), &LEGS, &mut [7; 95])?;
    write(rt, A.day(), &BROKEN, &mut [7; 95])?;
    write(rt, A.day(), &LEGS, &mut [7; 96])?;
    write(rt, A.day(), &LEGS, &mut [7; 97])
}
