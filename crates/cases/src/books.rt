// Books in memory: sound ones, each refusal and the order 3, 6, 7, 4, 5, 8, 9, 10, 13, then 5, 12 and 7 of a call; and that a refused commit
// tells no other book.
use crate::days::{A, BROKEN, LEGS, SHORT};
use crate::{calls, entries, line};
use book::Book;
use dispatch::{Commit, Dispatch};
use std::io;

// The most that a weight may be, and one more.
const MOST: i64 = Book::WEIGHT;

const OVER: i64 = Book::WEIGHT + 1;

// The most metres of a crane after 256 calls, and one more.
const LONGEST: u32 = 256_000_000;

const LONGER: u32 = LONGEST + 1;

// What a case changes in a book: an entry of a list, by its index.
#[derive(Clone, Copy)]
pub enum Change {
    Start(usize, u16),
    Stand(usize, u16),
    Call(usize, u16),
    Follower(usize, u16),
    Weight(usize, i64),
    Driven(usize, u32),
}

use Change::{Call, Driven, Follower, Stand, Start, Weight};

// A call at a place over a road table, and the crane that is sent to it.
#[derive(Clone, Copy)]
struct Question<'a> {
    places: usize,
    table: &'a [u32],
    place: u16,
    crane: usize,
}

// Crane 0 and place 0, over so many places.
fn over(places: usize, table: &[u32]) -> Question<'_> {
    Question {
        places,
        table,
        place: 0,
        crane: 0,
    }
}

// The follower of stop p, other than the first, where the first crane serves every call in turn and every crane ends where it started.
fn next(p: usize) -> u16 {
    if p < Book::CRANES {
        return p as u16;
    }
    ((p % Book::STOPS + 1) % Book::STOPS) as u16
}

// The book of so many cranes and calls with everyone at place 0, weights alike and no metres, and with all entries of a full book.
fn full(weight: i64, cranes: usize, calls: usize) -> Book {
    let mut plan = [0; Book::STOPS];
    for (p, follower) in plan.iter_mut().enumerate() {
        *follower = next(p);
    }
    plan[0] = Book::CRANES as u16;
    Book {
        cranes,
        calls,
        starts: [0; Book::CRANES],
        stands: [0; Book::CRANES],
        requests: [0; Book::CALLS],
        plan,
        weights: [weight; Book::STOPS],
        driven: [0; Book::CRANES],
    }
}

// A book with one entry changed.
fn changed(book: Book, change: Change) -> Book {
    let mut other = book;
    match change {
        Start(at, place) => line::set(&mut other.starts, at, place),
        Stand(at, place) => line::set(&mut other.stands, at, place),
        Call(at, place) => line::set(&mut other.requests, at, place),
        Follower(at, stop) => line::set(&mut other.plan, at, stop),
        Weight(at, weight) => line::set(&mut other.weights, at, weight),
        Driven(at, metres) => line::set(&mut other.driven, at, metres),
    }
    other
}

// The book of one crane without calls, all weights 3, with entries past its counts.
fn alone() -> Book {
    changed(full(3, 1, 0), Follower(0, 0))
}

// The full book.
fn most() -> Book {
    full(0, 16, 256)
}

// Whether a commit has a least of 0 and the book that was given.
fn is_blank(commit: Commit, book: Book) -> bool {
    (commit.least == 0) & entries::same(book, commit.book)
}

// Prints the number of the costs of a book, the least and the floor; the number of the net costs, and whether all 16 are 0, 1 or 0.
fn costs(rt: &impl Print, book: Book, question: Question) -> io::Result<()> {
    let costs = Dispatch::costs(book, question.places, question.table);
    let (least, floor) = costs.map_or((0, 0), |costs| (costs.least, costs.floor));
    let nets = Dispatch::net_costs(book, question.places, question.table, question.place);
    let zeros = line::rest_is(0, &nets.unwrap_or([0; Book::CRANES]), 0);
    print!(rt;
        " {} {least} {floor} {} {}",
        base::number(costs),
        base::number(nets),
        u8::from(zeros)
    )
}

// Prints of a book and a call the number that the test gives; the costs and the net costs; the number of the quote, and whether its crane,
// metres and least are 0, 1 or 0; the number of the commit of a crane, and whether its least is 0 and its book is the one given, 1 or 0.
fn ask(rt: &impl Print, book: Book, question: Question) -> io::Result<()> {
    let places = question.places;
    let table = question.table;
    let tested = base::number(book.test(places, table));
    print!(rt; " {tested}")?;
    costs(rt, book, question)?;
    let quote = Dispatch::quote(book, places, table, question.place);
    let zeros = quote.map_or(
        true,
        |quote| (quote.crane == 0) & (quote.metres == 0) & (quote.least == 0),
    );
    print!(rt; " {} {}", base::number(quote), u8::from(zeros))?;
    let commit = Dispatch::commit(book, places, table, question.place, question.crane);
    let same = commit.map_or(true, |commit| is_blank(commit, book));
    print!(rt; " {} {},", base::number(commit), u8::from(same))
}

// The same over two places 7 metres apart.
fn ask_near(rt: &impl Print, book: Book) -> io::Result<()> {
    ask(rt, book, over(2, &[7]))
}

// The same over three places by legs that break the triangle rule.
fn ask_broken(rt: &impl Print, book: Book, second: u32) -> io::Result<()> {
    ask(rt, book, over(3, &[10, second, 15]))
}

// A book of one crane without calls, with entries past its counts, and a full one; one crane over one place, and over 64, where it is sent from
// the first to the last.
pub(crate) fn counts(rt: &impl Print) -> io::Result<()> {
    line::begin(rt, 19)?;
    ask_near(rt, alone())?;
    ask_near(rt, most())?;
    ask(rt, alone(), over(1, &[]))?;
    ask(
        rt,
        alone(),
        Question {
            place: 63,
            ..over(64, &[7; 2_016])
        },
    )?;
    // Places and legs, the other counts, places past the last, then the legs.
    line::begin(rt, 20)?;
    ask(rt, most(), over(65, &[]))?;
    ask(rt, most(), over(3, &[7; 2]))?;
    ask(rt, most(), over(3, &[7; 4]))?;
    ask(rt, most(), over(1, &[7]))?;
    ask(
        rt,
        alone(),
        Question {
            place: 63,
            ..over(64, &[7; 2_015])
        },
    )?;
    ask_near(rt, full(0, 0, 256))?;
    ask_near(rt, full(0, 17, 256))?;
    ask_near(rt, full(0, 16, 257))?;
    ask_near(rt, changed(most(), Start(15, 2)))?;
    ask_near(rt, changed(most(), Call(255, 2)))?;
    ask_near(rt, changed(most(), Stand(15, 2)))?;
    ask_broken(rt, most(), 1_000_001)?;
    ask_broken(rt, most(), 26)
}

// A plan that names a stand twice, one with a follower out of range, one that goes back to an earlier call. Then a crane driven away: the
// last leg to its stand counts, and only the weights of stands tell that.
pub(crate) fn plans(rt: &impl Print) -> io::Result<()> {
    line::begin(rt, 21)?;
    ask_near(rt, changed(most(), Follower(1, 2)))?;
    ask_near(rt, changed(most(), Follower(271, 272)))?;
    ask_near(
        rt,
        changed(changed(most(), Follower(18, 21)), Follower(20, 19)),
    )?;
    line::begin(rt, 22)?;
    let away = changed(most(), Stand(0, 1));
    ask_near(rt, away)?;
    ask_near(rt, changed(away, Weight(0, 7)))
}

// Weights at the ends of their range and past them; that of a call, and that of a stand, above the others.
pub(crate) fn weights(rt: &impl Print) -> io::Result<()> {
    line::begin(rt, 23)?;
    ask_near(rt, full(MOST, 16, 256))?;
    ask_near(rt, full(-MOST, 16, 256))?;
    ask_near(rt, full(OVER, 16, 256))?;
    ask_near(rt, full(-OVER, 16, 256))?;
    ask_near(rt, changed(most(), Weight(271, 1)))?;
    ask_near(rt, changed(most(), Weight(15, 1)))
}

// The most metres that a crane may have after 256 calls, and one more. Then one crane without calls: a metre of its own; and no metres within
// any limit past it, with a number above it sent.
pub(crate) fn metres(rt: &impl Print) -> io::Result<()> {
    let idle = changed(full(0, 1, 0), Follower(0, 0));
    line::begin(rt, 24)?;
    ask_near(rt, changed(most(), Driven(15, LONGEST)))?;
    ask_near(rt, changed(most(), Driven(15, LONGER)))?;
    ask_near(rt, changed(idle, Driven(0, 1)))?;
    ask(
        rt,
        changed(idle, Driven(1, u32::MAX)),
        Question {
            crane: 1,
            ..over(2, &[7])
        },
    )
}

// 3 before 6, of the places and of a run that is too short or too long; 6 before 7, 7 before 4, 4 before 5, 5 before 8, 8 before 9, 9 before 10,
// 10 before 13. Then 13 before 5 of the call's place, that before 12, 12 before 7, and 7.
pub(crate) fn order(rt: &impl Print) -> io::Result<()> {
    line::begin(rt, 25)?;
    ask(rt, full(0, 0, 256), over(0, &[]))?;
    ask(rt, full(0, 0, 256), over(3, &[7; 2]))?;
    ask(rt, full(0, 17, 256), over(3, &[7; 4]))?;
    ask_near(rt, full(0, 17, 257))?;
    ask_broken(rt, full(0, 16, 257), 1_000_001)?;
    ask_broken(rt, changed(most(), Stand(0, 3)), 1_000_001)?;
    ask_broken(rt, changed(most(), Stand(0, 3)), 26)?;
    ask_broken(rt, changed(most(), Follower(1, 2)), 26)?;
    ask_near(rt, changed(full(OVER, 16, 256), Follower(1, 2)))?;
    let near = over(2, &[7]);
    let longer = changed(most(), Driven(15, LONGER));
    ask(
        rt,
        changed(full(OVER, 16, 256), Driven(15, LONGER)),
        Question { place: 2, ..near },
    )?;
    ask(
        rt,
        longer,
        Question {
            place: 2,
            crane: 16,
            ..near
        },
    )?;
    ask(
        rt,
        most(),
        Question {
            place: 2,
            crane: 16,
            ..near
        },
    )?;
    ask(rt, most(), Question { crane: 16, ..near })?;
    ask(rt, most(), Question { crane: 15, ..near })
}

// Books with space for the call: one crane, sent itself, and numbers above it; sixteen cranes, the last one sent, and the number above it.
pub(crate) fn cranes(rt: &impl Print) -> io::Result<()> {
    let away = Question {
        place: 1,
        ..over(2, &[7])
    };
    let last = changed(full(0, 16, 255), Follower(270, 0));
    line::begin(rt, 26)?;
    ask(rt, alone(), away)?;
    ask(rt, alone(), Question { crane: 1, ..away })?;
    ask(
        rt,
        alone(),
        Question {
            crane: usize::MAX,
            ..away
        },
    )?;
    ask(rt, last, Question { crane: 15, ..away })?;
    ask(rt, last, Question { crane: 16, ..away })
}

// A fresh book, and books of zeros in place of that of a day refused by 8, and of one refused by 3.
pub(crate) fn fresh(rt: &impl Print) -> io::Result<()> {
    let book = Book::fresh(A.day(), &LEGS).unwrap_or(entries::ZEROS);
    let crossed = Book::fresh(A.day(), &BROKEN).unwrap_or(entries::ZEROS);
    let shorter = Book::fresh(A.day(), &SHORT).unwrap_or(entries::ZEROS);
    line::begin(rt, 27)?;
    ask(rt, book, over(3, &LEGS))?;
    ask(rt, crossed, over(3, &LEGS))?;
    ask(rt, shorter, over(3, &LEGS))?;
    line::begin(rt, 28)?;
    let filled = calls::filled(rt, book)?;
    ask(rt, filled, over(3, &LEGS))?;
    ask_near(rt, calls::sent_in_turn())
}
