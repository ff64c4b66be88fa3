// The tests of a call that is asked of a book, beside those of the book itself.
ghost use Rattle.std.specs.Prelude.{◌≡◌};
ghost use Rattle.base.specs.Numbers.{number_of};
ghost use Rattle.dispatch.specs.Commit.{asked_crane_refusal};
ghost use Rattle.dispatch.specs.Quote.{asked_place_refusal, full_refusal};

use base::Refusal;
use book::Book;

// 5 unless the asked place is below the number of places.
pub(crate) fn test_place(places: usize, place: u16) -> Result<(), Refusal>
    ensures { number_of result ≡ asked_place_refusal places place }
{
    if places <= place as usize {
        return Err(Refusal::Place);
    }
    Ok(())
}

// 12 unless the crane asked for is below the number of cranes.
pub(crate) fn test_crane(cranes: usize, crane: usize) -> Result<(), Refusal>
    ensures { number_of result ≡ asked_crane_refusal cranes crane }
{
    if cranes <= crane {
        return Err(Refusal::Crane);
    }
    Ok(())
}

// 7 unless the book has space for one more call.
pub(crate) fn test_space(calls: usize) -> Result<(), Refusal>
    ensures { number_of result ≡ full_refusal calls }
{
    if Book::CALLS <= calls {
        return Err(Refusal::Calls);
    }
    Ok(())
}
