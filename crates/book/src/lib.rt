// The book of a running day, beside its road table: limits, its test, which makes it sound, and the fresh book of a day. Stands on
// `base`, `road`, `dayfile` and `workfunction`.
#![tactic(auto)]

mod driven;
mod fresh;
mod plan;
mod weights;

ghost use Rattle.std.specs.Prelude.{◌≡◌};
ghost use Rattle.base.specs.Numbers.{number_of};
ghost use Rattle.workfunction.specs.Plan.{place};
ghost use Rattle.book.specs.Book.{book_refusal, opening, fresh_of};

use crate::weights::Witness;
use base::Refusal;
use dayfile::Day;
use road::Road;

// A book in memory, beside its road table. Entries past the counts are ignored where a book is given, and 0 in a book
// that is returned. Stops and followers have the same numbers: the cranes' starts or stands first, then the calls.
// The counts stand beside arrays of a fixed size, since memory is fixed, and `book_refusal` and `tidied` say what holds past them. No
// equality is derived: two books are the same by the entries within their counts.
#[derive(Clone, Copy)]
pub struct Book {
    pub cranes: usize,
    pub calls: usize,
    // The place at which each crane started.
    pub starts: [u16; Book::CRANES],
    // The place at which each crane stands.
    pub stands: [u16; Book::CRANES],
    // The place of each call, in order.
    pub requests: [u16; Book::CALLS],
    // The follower of each stop: a perfect matching.
    pub plan: [u16; Book::STOPS],
    // The weight of each follower: its dual variable.
    pub weights: [i64; Book::STOPS],
    // The metres that each crane has driven.
    pub driven: [u32; Book::CRANES],
}

impl Book {
    // The most cranes of a book, as of a day.
    pub const CRANES: usize = Day::CRANES;

    // The most calls of a book, as of a day.
    pub const CALLS: usize = Day::CALLS;

    // The most stops, and the most followers.
    pub const STOPS: usize = Book::CRANES + Book::CALLS;

    // A weight is at most this, and at least its opposite.
    pub const WEIGHT: i64 = 1_099_511_627_776;

    // The place of a stop, where the first list is that of the starts, or of a follower, where it is that of the stands; 0 past
    // the calls.
    #[tactic(auto, using(workfunction::proofs::Stops::place_stand, crate::proofs::Places::place_past, crate::proofs::Places::place_none))]
    pub fn place_of(first: &[u16], calls: &[u16], p: usize) -> u16
        ensures { result ≡ place first.now calls.now p }
    {
        match first.get(p) {
            Some(place) => *place,
            None => calls.get(p - first.len()).copied().unwrap_or(0),
        }
    }

    // The fresh book of a day: no calls, each crane at its start, start j followed by stand j, weights and metres 0; the
    // same test of the day as for writing it.
    #[tactic(auto, using(crate::proofs::FreshBook::few_cranes, crate::proofs::FreshBook::opened))]
    pub fn fresh(day: Day, table: &[u32]) -> Result<Book, Refusal>
        ensures { opening result ≡ fresh_of day table.now }
    {
        day.test(table)?;
        Ok(fresh::book(day.cranes, day.starts))
    }

    // The whole test of a book against a table: 3, 6, 7, 4, 5 of starts and calls as of a day, 5 of stands, 8, 9, 10, 13.
    pub fn test(self, places: usize, table: &[u32]) -> Result<(), Refusal>
        ensures { number_of result ≡ book_refusal self places table.now }
    {
        let day = Day {
            places,
            cranes: self.cranes,
            calls: self.calls,
            starts: self.starts,
            requests: self.requests,
        };
        day.test_placed(table)?;
        Day::test_stops(places, &self.stands[..self.cranes])?;
        Road::test_triangles(places, table)?;
        let stops = self.cranes + self.calls;
        plan::test(self.cranes, &self.plan[..stops])?;
        let witness = Witness {
            table,
            starts: &self.starts[..self.cranes],
            calls: &self.requests[..self.calls],
            stands: &self.stands[..self.cranes],
            plan: &self.plan[..stops],
            weights: &self.weights[..stops],
        };
        witness.test()?;
        driven::test(
            Road::METRES * self.calls as u32,
            &self.driven[..self.cranes],
        )
    }
}
