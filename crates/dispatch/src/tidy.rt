// A book with 0 past its counts.
ghost use Rattle.std.specs.Prelude.{◌≡◌, ◌≤◌};
ghost use Rattle.dayfile.specs.Day.{most_cranes, most_calls};
ghost use Rattle.dispatch.specs.Commit.{tidied};

use book::Book;

// The book with 0 past its counts. Apart from the commit that asks for it: among its loops the compiler clears the plan at work twice.
#[inline(never)]
pub(crate) fn tidy(book: Book) -> Book
    requires { (book.cranes ≤ most_cranes) × (book.calls ≤ most_calls) }
    ensures { result ≡ tidied book }
{
    let stops = book.cranes + book.calls;
    let mut tidy = book;
    tidy.starts[book.cranes..].fill(0);
    tidy.stands[book.cranes..].fill(0);
    tidy.requests[book.calls..].fill(0);
    tidy.plan[stops..].fill(0);
    tidy.weights[stops..].fill(0);
    tidy.driven[book.cranes..].fill(0);
    tidy
}
