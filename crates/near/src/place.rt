// The tests of a place that is asked of a book, before that of the buffer.
ghost use Rattle.std.specs.Prelude.{◌≡◌};
ghost use Rattle.base.specs.Numbers.{number_of};
ghost use Rattle.near.specs.Near.{near_refusal};

use base::Refusal;
use book::Book;
use dayfile::Day;

// The test of the book, then 5 for the place.
#[tactic(auto, using(base::proofs::Numbers::handing))]
pub(crate) fn test(book: Book, places: usize, table: &[u32], place: u16) -> Result<(), Refusal>
    ensures { number_of result ≡ near_refusal book places table.now place }
{
    book.test(places, table)?;
    Day::test_stops(places, &[place])
}
