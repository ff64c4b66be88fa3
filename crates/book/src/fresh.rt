// The book with which a day begins.
ghost use Rattle.std.specs.Prelude.{◌≡◌, ◌≤◌, length};
ghost use Rattle.base.specs.Lists.{up_to};
ghost use Rattle.dayfile.specs.Day.{most_cranes};
ghost use Rattle.book.specs.Book.{fresh_book};

use crate::Book;

// Into each entry the number of its stop.
fn number(plan: &mut [u16])
    requires { length plan.old ≤ most_cranes }
    ensures { plan.new ≡ up_to (length plan.old) (λ p. p) }
{
    for (p, follower) in plan.iter_mut().enumerate() {
        *follower = p as u16;
    }
}

// The book of cranes that stand at their starts, without a call.
pub(crate) fn book(cranes: usize, starts: [u16; Book::CRANES]) -> Book
    requires { cranes ≤ most_cranes }
    ensures { result ≡ fresh_book cranes starts }
{
    let mut places = [0; Book::CRANES];
    places[..cranes].copy_from_slice(&starts[..cranes]);
    let mut plan = [0; Book::STOPS];
    number(&mut plan[..cranes]);
    Book {
        cranes,
        calls: 0,
        starts: places,
        stands: places,
        requests: [0; Book::CALLS],
        plan,
        weights: [0; Book::STOPS],
        driven: [0; Book::CRANES],
    }
}
