// Calls of case A in memory: its book before the last call, with the net costs, the quote and commits of one crane and another; the metres
// after it; and a full book of its places.
use crate::days::{A, LEGS};
use crate::{days, entries, line};
use base::Refusal;
use book::Book;
use dispatch::{Commit, Costs, Dispatch};
use std::{fmt, io};

// No place and no follower.
const STOP: u16 = 65_535;

// No weight within the range.
const WEIGHT: i64 = -Book::WEIGHT - 1;

// No metres within the limit.
const METRES: u32 = 4_294_967_295;

// A book grown by calls to quoted cranes, and how many of the quotes and of the commits were accepted.
#[derive(Clone, Copy)]
pub struct Grown {
    pub book: Book,
    pub quotes: u64,
    pub commits: u64,
}

impl Grown {
    // Before the first call.
    fn new(book: Book) -> Grown {
        Grown {
            book,
            quotes: 0,
            commits: 0,
        }
    }

    // One call more, by the legs of case A.
    fn call(self, place: u16) -> Grown {
        let quote = Dispatch::quote(self.book, 3, &LEGS, place);
        let crane = quote.map_or(0, |quote| quote.crane);
        let commit = Dispatch::commit(self.book, 3, &LEGS, place, crane);
        Grown {
            book: commit.map_or(self.book, |commit| commit.book),
            quotes: self.quotes.wrapping_add(u64::from(quote.is_ok())),
            commits: self.commits.wrapping_add(u64::from(commit.is_ok())),
        }
    }
}

// A book of case A with 256 calls. Prints how many quotes and how many commits were accepted.
pub(crate) fn filled(rt: &impl Print, fresh: Book) -> io::Result<Book> {
    let mut grown = Grown::new(fresh);
    for i in 0..Book::CALLS {
        grown = grown.call((i % 3) as u16);
    }
    print!(rt; " {} {}", grown.quotes, grown.commits)?;
    Ok(grown.book)
}

// The book after a crane was sent to a place, the same book where that is refused.
pub(crate) fn after_commit(
    book: Book,
    places: usize,
    table: &[u32],
    place: u16,
    crane: usize,
) -> Book {
    Dispatch::commit(book, places, table, place, crane).map_or(book, |commit| commit.book)
}

// A book of sixteen cranes at place 0 after 256 calls at place 1, 7 metres away, to which they are sent one after another.
pub(crate) fn sent_in_turn() -> Book {
    let mut book = Book::fresh(days::idle(2, 16), &[7]).unwrap_or(entries::ZEROS);
    for i in 0..Book::CALLS {
        book = after_commit(book, 2, &[7], 1, i % Book::CRANES);
    }
    book
}

// Prints the net costs of a call at a place: the number, those of cranes 0 and 1, and whether all past them are 0, 1 or 0.
fn net_costs(rt: &impl Print, book: Book, place: u16) -> io::Result<()> {
    let told = Dispatch::net_costs(book, 3, &LEGS, place);
    let nets = told.unwrap_or([0; Book::CRANES]);
    let zeros = u8::from(line::rest_is(0, &nets, 2));
    print!(rt; " {} {} {} {zeros},", base::number(told), nets[0], nets[1])
}

// Prints the quote of a call at place 1: the number, the crane, the metres and the least.
fn quote(rt: &impl Print, book: Book) -> io::Result<()> {
    match Dispatch::quote(book, 3, &LEGS, 1) {
        Ok(quote) => print!(rt; " 0 {} {} {},", quote.crane, quote.metres, quote.least),
        Err(refusal) => print!(rt; " {} 0 0 0,", u8::from(refusal)),
    }
}

// A commit, and the costs of the book after it, the same book where it is refused. They print as the commit's number and least, and both costs,
// 0 where they are refused.
#[derive(Clone, Copy)]
pub struct Sent {
    pub commit: Result<Commit, Refusal>,
    pub costs: Result<Costs, Refusal>,
}

impl Sent {
    // The commit of a crane to a call at a place.
    fn new(book: Book, place: u16, crane: usize) -> Sent {
        let commit = Dispatch::commit(book, 3, &LEGS, place, crane);
        let after = commit.map_or(book, |commit| commit.book);
        Sent {
            commit,
            costs: Dispatch::costs(after, 3, &LEGS),
        }
    }
}

impl fmt::Display for Sent {
    fn fmt<W: fmt::Write>(&self, f: &mut fmt::Formatter<W>) -> fmt::Result {
        let least = self.commit.map_or(0, |commit| commit.least);
        let (kept, floor) = self
            .costs
            .map_or((0, 0), |costs| (costs.least, costs.floor));
        write!(f, " {} {least} {kept} {floor}", base::number(self.commit))
    }
}

// A book with entries past its counts that break every rule.
pub(crate) fn spoiled(book: Book) -> Book {
    entries::padded(book, STOP, WEIGHT, METRES)
}

// Prints the commit of a crane to place 1 of such a book; whether the book after it is the one after it without them, and whether it has 0 past
// its counts, 1 or 0.
fn commit_padded(rt: &impl Print, book: Book, crane: usize) -> io::Result<()> {
    let plain = after_commit(book, 3, &LEGS, 1, crane);
    let padded = spoiled(book);
    let after = after_commit(padded, 3, &LEGS, 1, crane);
    let alike = u8::from(entries::same(plain, after));
    let zeros = u8::from(entries::same(entries::padded(after, 0, 0, 0), after));
    print!(rt; "{} {alike} {zeros},", Sent::new(padded, 1, crane))
}

// The book before the last call, over the legs of case A.
fn before_last() -> Book {
    let fresh = Book::fresh(A.day(), &LEGS).unwrap_or(entries::ZEROS);
    Grown::new(fresh).call(1).call(0).book
}

// The book before the last call: the net costs, those of a place past the last, and the quote; each crane, a number above them, and that
// number to a place past the last. Then with other entries past its counts.
pub(crate) fn last(rt: &impl Print) -> io::Result<()> {
    let book = before_last();
    line::begin(rt, 29)?;
    net_costs(rt, book, 1)?;
    net_costs(rt, book, 3)?;
    quote(rt, book)?;
    print!(rt; "{},", Sent::new(book, 1, 0))?;
    print!(rt; "{},", Sent::new(book, 1, 1))?;
    print!(rt; "{},", Sent::new(book, 1, 2))?;
    print!(rt; "{},", Sent::new(book, 3, 2))?;
    line::begin(rt, 30)?;
    net_costs(rt, spoiled(book), 1)?;
    quote(rt, spoiled(book))?;
    commit_padded(rt, book, 0)?;
    commit_padded(rt, book, 1)
}

// Prints the metres of cranes 0 and 1, and their sum.
fn metres(rt: &impl Print, book: Book) -> io::Result<()> {
    let first = u64::from(book.driven[0]);
    let second = u64::from(book.driven[1]);
    print!(rt; " {first} {second} {},", first + second)
}

// After the last call: the metres by the quoted crane, and by crane 0. Then the sum of the drives, the way home and the floor of the served day.
pub(crate) fn driven(rt: &impl Print) -> io::Result<()> {
    let book = before_last();
    line::begin(rt, 31)?;
    metres(rt, Grown::new(book).call(1).book)?;
    metres(rt, after_commit(book, 3, &LEGS, 1, 0))?;
    let served = Dispatch::serve_day(A.day(), &LEGS);
    let (driven, home, floor) = served.map_or((0, 0, 0), |day| (day.driven, day.home, day.floor));
    print!(rt; " {driven} {home} {floor},")
}
