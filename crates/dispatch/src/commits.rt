// The commit of a crane: its test, and what is told of it.
ghost use Rattle.std.specs.Prelude.{◌≡◌, ℕ, Ok};
ghost use Rattle.base.specs.Numbers.{number_of};
ghost use Rattle.dispatch.specs.Commit.{commit_refusal, tidied, book_after, drive_of, least_after, committed, Next};

use crate::instance::Instance;
use crate::matching::Matching;
use crate::{Commit, call, legs, serve, tidy};
use base::Refusal;
use book::Book;

// The test of the book, then 5 for the place, then 12 for the crane, then 7 for a full book.
#[tactic(auto, using(base::proofs::Numbers::handing))]
pub(crate) fn test(
    book: Book,
    places: usize,
    table: &[u32],
    place: u16,
    crane: usize,
) -> Result<(), Refusal>
    ensures { number_of result ≡ commit_refusal book places table.now place crane }
{
    book.test(places, table)?;
    call::test_place(places, place)?;
    call::test_crane(book.cranes, crane)?;
    call::test_space(book.calls)
}

// A commit that is accepted.
pub(crate) fn accepted(book: Book, table: &[u32], place: u16, crane: usize) -> Commit
    requires { (n : ℕ) × (commit_refusal book n table.now place crane ≡ 0) }
    ensures { (n : ℕ) → commit_refusal book n table.now place crane ≡ 0 → (committed book (Ok result) ≡ record { number = 0; least = least_after book n table.now place crane; book = book_after (tidied book) crane place (drive_of book table.now place crane) result.book.plan result.book.weights }) × Next result.book n table.now }
{
    let tidy = tidy::tidy(book);
    let calls = tidy.calls;
    let mut requests = tidy.requests;
    let mut stands = tidy.stands;
    let mut driven = tidy.driven;
    let mut matching = Matching {
        plan: tidy.plan,
        weights: tidy.weights,
        costs: legs::zeros(),
    };
    legs::of_book(tidy, table, &mut matching.costs[..]);
    let instance = Instance {
        table,
        starts: &tidy.starts[..tidy.cranes],
        calls: &requests[..calls],
    };
    let step = serve::serve_call(
        instance,
        place,
        Some(crane),
        &mut stands[..tidy.cranes],
        &mut matching,
    );
    let Matching { plan, weights, .. } = matching;
    requests[calls] = place;
    let sent = step.crane;
    driven[sent] += step.metres;
    Commit {
        least: step.least,
        book: Book {
            calls: calls + 1,
            stands,
            requests,
            plan,
            weights,
            driven,
            ..tidy
        },
    }
}
