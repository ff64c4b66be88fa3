// The two costs of a book that is sound, from the plan and the weights that it keeps.
ghost use Rattle.std.specs.Prelude.{◌≡◌, ℕ, Ok};
ghost use Rattle.road.specs.Table.{metres_of};
ghost use Rattle.workfunction.specs.Movement.{work, floor as Movement·floor};
ghost use Rattle.book.specs.Book.{starts_of, stands_of, requests_of, book_refusal};
ghost use Rattle.dispatch.specs.Costs.{two_costs};

use crate::instance::Instance;
use crate::matching::Matching;
use crate::{Costs, floor, legs, lists, plan};
use book::Book;

// The least is the cost of the kept plan, the floor that of the plan with its ends moved to the starts.
pub(crate) fn accepted(book: Book, table: &[u32]) -> Costs
    requires { (n : ℕ) × (book_refusal book n table.now ≡ 0) }
    ensures { (n : ℕ) → book_refusal book n table.now ≡ 0 → two_costs (Ok result) ≡ record { number = 0; least = work (metres_of table.now) n (starts_of book) (requests_of book) (stands_of book); floor = Movement·floor (metres_of table.now) n (starts_of book) (requests_of book) } }
{
    let starts = book.starts;
    let requests = book.requests;
    let kept = book.plan;
    let vouching = book.weights;
    let stops = book.cranes + book.calls;
    let plan = lists::copy(stops, &kept[..], 0);
    let weights = lists::copy(stops, &vouching[..], 0);
    let costs = legs::zeros();
    let mut matching = Matching {
        plan,
        weights,
        costs,
    };
    legs::of_book(book, table, &mut matching.costs[..]);
    let least = plan::cost(stops, &matching.plan[..], &matching.costs[..]);
    let instance = Instance {
        table,
        starts: &starts[..book.cranes],
        calls: &requests[..book.calls],
    };
    let floor = floor::floor(instance, &mut matching);
    Costs { least, floor }
}
