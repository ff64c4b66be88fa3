// The net costs of a call: what the search tells of each crane, and the list that a caller is told.
ghost use Rattle.std.specs.Prelude.{◌++◌, ◌≡◌, ℕ, pos, ◌-ℤ◌, drop, Ok};
ghost use Rattle.base.specs.Lists.{up_to};
ghost use Rattle.dispatch.specs.Insertion.{QuoteGiven, BookNetted, LowerGiven};
ghost use Rattle.dispatch.specs.NetCosts.{net_list, nets_by_crane};
ghost use Rattle.dispatch.specs.Quote.{quote_refusal};
ghost use Rattle.dispatch.specs.Search.{at, net_base};

use crate::choice::Ends;
use crate::search::Search;
use crate::{insert, legs, search};
use book::Book;

// Of each crane the net cost of freeing it for a call at `place`; and the table of the legs with the call in it.
pub(crate) fn of_book(book: Book, table: &[u32], place: u16, costs: &mut [u32]) -> Ends
    requires { QuoteGiven book table.now place costs.old }
    ensures { (n : ℕ) → quote_refusal book n table.now place ≡ 0 → BookNetted book n table.now place result.nets costs.new }
{
    let cranes = book.cranes;
    let new = cranes + book.calls;
    let weights = book.weights;
    let mut plan = book.plan;
    legs::of_book(book, table, costs);
    legs::extend(table, new, place, costs);
    let mut search = Search::new();
    insert::find(cranes, new, costs, &weights[..], &mut plan[..], &mut search)
}

// The signed net costs of the cranes, from those that the search counts from its base.
fn lower(cranes: usize, nets: &[u64], list: &mut [i64])
    requires { LowerGiven cranes nets.now list.old }
    ensures { list.new ≡ up_to cranes (λ e. pos (at nets.now e) -ℤ pos net_base) ++ drop cranes list.old }
{
    for e in 0..cranes {
        list[e] = search::lowered(nets[e]);
    }
}

// Net costs that are told.
pub(crate) fn accepted(book: Book, table: &[u32], place: u16) -> [i64; Book::CRANES]
    requires { (n : ℕ) × (quote_refusal book n table.now place ≡ 0) }
    ensures { (n : ℕ) → quote_refusal book n table.now place ≡ 0 → net_list (Ok result) ≡ record { number = 0; nets = nets_by_crane book n table.now place } }
{
    let mut costs = legs::zeros();
    let mut list = [0; Book::CRANES];
    let ends = of_book(book, table, place, &mut costs[..]);
    lower(book.cranes, &ends.nets[..], &mut list[..]);
    list
}
