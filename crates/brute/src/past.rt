// Entries past the counts: random days, and the books that grow from them, with numbers there that break every rule, in every array;
// beside the brute search, and beside the same day without them.
ghost use Rattle.std.specs.Prelude.{◌<◌};

use crate::roads::Square;
use crate::search;
use crate::search::{Sides, Site};
use crate::small::Counts;
use crate::tally::Tally;
use base::Refusal;
use book::Book;
use dayfile::Day;

// No place and no follower.
const STOP: u16 = 65_535;

// No weight within the range.
const WEIGHT: i64 = -Book::WEIGHT - 1;

// No metres of a crane within the limit.
const METRES: u32 = 4_294_967_295;

// The same value in every entry from an index on.
fn spoil<T: Copy>(list: &mut [T], from: usize, value: T) {
    for entry in list.iter_mut().skip(from) {
        *entry = value;
    }
}

// A day with such places past its counts.
fn spoiled_day(day: Day) -> Day {
    let mut starts = day.starts;
    let mut requests = day.requests;
    spoil(&mut starts, day.cranes, STOP);
    spoil(&mut requests, day.calls, STOP);
    Day {
        starts,
        requests,
        ..day
    }
}

// A book with such entries past its counts.
fn spoiled_book(book: Book) -> Book {
    let stops = book.cranes.wrapping_add(book.calls);
    let mut starts = book.starts;
    let mut stands = book.stands;
    let mut requests = book.requests;
    let mut plan = book.plan;
    let mut weights = book.weights;
    let mut driven = book.driven;
    spoil(&mut starts, book.cranes, STOP);
    spoil(&mut stands, book.cranes, STOP);
    spoil(&mut requests, book.calls, STOP);
    spoil(&mut plan, stops, STOP);
    spoil(&mut weights, stops, WEIGHT);
    spoil(&mut driven, book.cranes, METRES);
    Book {
        starts,
        stands,
        requests,
        plan,
        weights,
        driven,
        ..book
    }
}

// Whether two books are the same in every entry, those past their counts too.
fn same(a: &Book, b: &Book) -> bool {
    a.cranes == b.cranes
        && a.calls == b.calls
        && a.starts == b.starts
        && a.stands == b.stands
        && a.requests == b.requests
        && a.plan == b.plan
        && a.weights == b.weights
        && a.driven == b.driven
}

// The records of ten legs, four cranes and six calls.
const ROOM: usize = 240;

// Whether two days over a run are written alike, into buffers with the same before.
fn written_alike(a: Day, b: Day, run: &[u32]) -> Result<bool, Refusal> {
    let mut one = [9; ROOM];
    let mut other = [9; ROOM];
    let length = a.write(run, &mut one)?;
    let again = b.write(run, &mut other)?;
    Ok(length == again && one == other)
}

// A day of so many calls and one more: every figure and the sheet are the search's, the last call is served from a book with such
// entries, and the book after it and the file are those of the day without them.
fn agrees(day: Day, square: &Square, place: u16) -> Result<bool, Refusal> {
    let site = Site::of(&day, square);
    let spoiled = spoiled_day(day);
    let plain = search::day(day, square)?.call(&site, place, 0)?;
    let sides = search::day(spoiled, square)?;
    let back = Sides {
        book: spoiled_book(sides.book),
        ..sides
    };
    let last = back.agreed(&site)?.call(&site, place, 0)?;
    let written = written_alike(day, spoiled, site.run())?;
    Ok(plain.outcome.agree && last.outcome.agree && same(&plain.book, &last.book) && written)
}

// The same of the random day of a number.
fn drawn_agrees(counts: Counts, number: usize) -> bool {
    let square = counts.drawn_square(number, 1_000);
    agrees(
        counts.drawn_day(number),
        &square,
        counts.drawn_place(number),
    )
    .unwrap_or(false)
}

// Forty days of a size too.
fn some(before: Tally, places: usize, cranes: usize, calls: usize) -> Tally
    requires { 0 < places }
{
    let counts = Counts {
        places,
        cranes,
        calls,
    };
    (0..40).fold(
        before,
        |tally, number| tally.add(drawn_agrees(counts, number)),
    )
}

// Days of three sizes, one without a call before the last.
pub(crate) fn all() -> Tally {
    some(some(some(Tally::NONE, 5, 4, 5), 4, 2, 5), 3, 3, 0)
}
