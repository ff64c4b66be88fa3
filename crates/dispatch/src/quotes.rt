// The quote of a call: its test, and what is told of it. It searches as a commit does, and flips no plan.
ghost use Rattle.std.specs.Prelude.{◌≡◌, ℕ, Ok};
ghost use Rattle.base.specs.Numbers.{number_of};
ghost use Rattle.dispatch.specs.Quote.{quote_refusal, quoted, figures_of};

use crate::{Quote, call, legs, nets, plan, search};
use base::Refusal;
use book::Book;

// The test of the book, then 5 for the place, then 7 for a full book.
#[tactic(auto, using(base::proofs::Numbers::handing))]
pub(crate) fn test(book: Book, places: usize, table: &[u32], place: u16) -> Result<(), Refusal>
    ensures { number_of result ≡ quote_refusal book places table.now place }
{
    book.test(places, table)?;
    call::test_place(places, place)?;
    call::test_space(book.calls)
}

// A quote that is accepted: the crane of the least net cost and drive together, and the cost of the kept plan with its net cost.
pub(crate) fn accepted(book: Book, table: &[u32], place: u16) -> Quote
    requires { (n : ℕ) × (quote_refusal book n table.now place ≡ 0) }
    ensures { (n : ℕ) → quote_refusal book n table.now place ≡ 0 → quoted (Ok result) ≡ record { number = 0; figures = figures_of book n table.now place } }
{
    let new = book.cranes + book.calls;
    let plan = book.plan;
    let mut costs = legs::zeros();
    // Steps 1 and 2 of section 3 of source document 000: the net cost of every crane.
    let ends = nets::of_book(book, table, place, &mut costs[..]);
    // Step 3: the smallest sum of net cost and drive.
    let crane = ends.choose(book.cranes, new, &costs[..]);
    let least = plan::cost(new, &plan[..], &costs[..]);
    Quote {
        crane,
        metres: legs::cost(&costs[..], new, crane),
        least: least + ends.nets[crane] - search::BASE,
    }
}
