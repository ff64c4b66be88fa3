// What is answered of a book and of a day: the net costs and the quote of a call, the commit of a crane, the two least costs, the served day,
// and the least plan of a day over metres that need not keep the triangle rule.
// Stands on `base`, `road`, `dayfile`, `workfunction` and `book`.
#![tactic(auto)]

mod call;
mod calls;
mod choice;
mod commits;
mod cost;
mod day;
mod ends;
mod flip;
mod floor;
mod home;
mod insert;
mod instance;
mod legs;
mod lists;
mod matching;
mod nets;
mod plan;
mod quotes;
mod search;
mod serve;
mod tidy;
mod weights;

ghost use Rattle.std.specs.Prelude.{◌≡◌};
ghost use Rattle.dispatch.specs.Commit.{commit_refusal, committed, commit_of, Next};
ghost use Rattle.dispatch.specs.Costs.{two_costs, costs_of};
ghost use Rattle.dispatch.specs.NetCosts.{net_list, nets_of};
ghost use Rattle.dispatch.specs.PlanFloor.{floor_told, plan_floor_of};
ghost use Rattle.dispatch.specs.Quote.{quoted, quote_of};
ghost use Rattle.dispatch.specs.ServedDay.{day_figures, served_day};

use crate::instance::Instance;
use base::Refusal;
use book::Book;
use dayfile::Day;

// The price of a call: the crane that would be sent, the metres that it would drive and the least cost after it.
#[derive(Clone, Copy)]
pub struct Quote {
    pub crane: usize,
    pub metres: u32,
    pub least: u64,
}

// What became of a crane that was sent to a call: the least cost after it and the new book.
#[derive(Clone, Copy)]
pub struct Commit {
    pub least: u64,
    pub book: Book,
}

// The two costs of a book.
#[derive(Clone, Copy)]
pub struct Costs {
    pub least: u64,
    pub floor: u64,
}

// A day served from its fresh book: of each call the crane sent, the metres that it drives and the least cost after it; the sum
// of the drives, the way home, and the floor. Entries past the number of calls are 0. An array of each figure and not one of figures,
// since `day_figures` tells them so; of a fixed size, since memory is fixed.
#[derive(Clone, Copy)]
pub struct ServedDay {
    pub calls: usize,
    pub cranes: [u16; Book::CALLS],
    pub metres: [u32; Book::CALLS],
    pub leasts: [u64; Book::CALLS],
    pub driven: u64,
    pub home: u64,
    pub floor: u64,
}

// The functions that answer. Nothing is kept between two calls but the book.
#[derive(Clone, Copy)]
pub struct Dispatch {}

impl Dispatch {
    // The net costs by which a quote chooses; refused as a quote is. That of each crane stands at its number: what the least cost rises
    // by, or falls by, if that crane is sent; 0 past the cranes.
    pub fn net_costs(
        book: Book,
        places: usize,
        table: &[u32],
        place: u16,
    ) -> Result<[i64; Book::CRANES], Refusal>
        ensures { net_list result ≡ nets_of book places table.now place }
    {
        quotes::test(book, places, table, place)?;
        Ok(nets::accepted(book, table, place))
    }

    // The price of a call at a place: the book's test, then 5 for the place, then 7 for a full book.
    pub fn quote(book: Book, places: usize, table: &[u32], place: u16) -> Result<Quote, Refusal>
        ensures { quoted result ≡ quote_of book places table.now place }
    {
        quotes::test(book, places, table, place)?;
        Ok(quotes::accepted(book, table, place))
    }

    // Sends a crane, the quoted one or another, to a call at a place: the book's test, then 5 for the place, then 12 for the
    // crane, then 7 for a full book. The new book's plan and weights are the only part of the result that document 01 leaves
    // open: of them it holds that the book is sound and has 0 past its counts. All else is one equation, for every input. A
    // refused commit leaves the book as it was given.
    pub fn commit(
        book: Book,
        places: usize,
        table: &[u32],
        place: u16,
        crane: usize,
    ) -> Result<Commit, Refusal>
        ensures { (committed book result ≡ commit_of book places table.now place crane (committed book result).book.plan (committed book result).book.weights) × (commit_refusal book places table.now place crane ≡ 0 → Next (committed book result).book places table.now) }
    {
        commits::test(book, places, table, place, crane)?;
        Ok(commits::accepted(book, table, place, crane))
    }

    // The two costs of a book: the least cost of all movements that end at the stands, and of all that end at the starts; the book's test.
    pub fn costs(book: Book, places: usize, table: &[u32]) -> Result<Costs, Refusal>
        ensures { two_costs result ≡ costs_of book places table.now }
    {
        book.test(places, table)?;
        Ok(cost::accepted(book, table))
    }

    // A whole day, its calls served in turn from the fresh book; the test of the day.
    pub fn serve_day(day: Day, table: &[u32]) -> Result<ServedDay, Refusal>
        ensures { day_figures result ≡ served_day day table.now }
    {
        let book = Book::fresh(day, table)?;
        Ok(day::served(day, book, table))
    }

    // The least cost of all plans that serve a day's calls and end at its starts. The table need not keep the triangle rule: the test of the
    // day by 3, 6, 7, 4 and 5, and not by 8. Over a table that keeps it, this is the floor of the day.
    pub fn plan_floor(day: Day, table: &[u32]) -> Result<u64, Refusal>
        ensures { floor_told result ≡ plan_floor_of day table.now }
    {
        day.test_placed(table)?;
        let instance = Instance {
            table,
            starts: &day.starts[..day.cranes],
            calls: &day.requests[..day.calls],
        };
        Ok(floor::of_day(instance))
    }
}
