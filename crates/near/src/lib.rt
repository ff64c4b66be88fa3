// Who is near a place, and which places hold a crane: of the stands of a sound book. Stands on `base`, `road`, `dayfile`,
// `workfunction` and `book`.
#![tactic(auto)]

mod mask;
mod metres;
mod order;
mod place;

ghost use Rattle.std.specs.Prelude.{◌≡◌};
ghost use Rattle.near.specs.Near.{nearby, near_of};
ghost use Rattle.near.specs.Occupancy.{held_places, occupancy_of};

use base::Refusal;
use book::Book;

// How many cranes are within a distance, whose numbers stand at the front of the lent buffer, and the nearest of all cranes. The count is
// told beside the buffer, since it is the caller's: memory is fixed.
#[derive(Clone, Copy)]
pub struct Nearby {
    pub count: usize,
    pub nearest: usize,
}

// How many places hold a crane, and the lowest that holds none, which is the number of places where all do.
#[derive(Clone, Copy)]
pub struct Occupied {
    pub held: usize,
    pub free: usize,
}

// The cranes whose stands are at most so many metres from a place, by metres and then by number, into the front of a lent buffer, and
// the first in that order of all cranes; the test of the book, then 5 for the place, then 11 where the buffer is shorter than the list.
pub fn near(
    book: Book,
    places: usize,
    table: &[u32],
    place: u16,
    distance: u32,
    out: &mut [u16],
) -> Result<Nearby, Refusal>
    ensures { nearby result out.new ≡ near_of book places table.now place distance out.old }
{
    place::test(book, places, table, place)?;
    let cranes = book.cranes;
    let found = metres::of_stands(table, &book.stands[..cranes], place);
    let metres = &found[..cranes];
    let count = metres::within(metres, distance);
    if out.len() < count {
        return Err(Refusal::Buffer);
    }
    order::put(metres, count, out);
    Ok(Nearby {
        count,
        nearest: order::nth(metres, 0),
    })
}

// How many different places hold a crane, and the lowest that holds none; the test of the book.
pub fn occupancy(book: Book, places: usize, table: &[u32]) -> Result<Occupied, Refusal>
    ensures { held_places result ≡ occupancy_of book places table.now }
{
    book.test(places, table)?;
    let mask = mask::of_places(&book.stands[..book.cranes]);
    let empty = !mask;
    Ok(Occupied {
        held: mask.count_ones() as usize,
        free: empty.trailing_zeros() as usize,
    })
}
