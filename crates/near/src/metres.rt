// The metres from the stand of each crane to a place, and how many of them are within a distance.
ghost use Rattle.std.specs.Prelude.{◌≡◌, leb, length, get_or};
ghost use Rattle.base.specs.Lists.{padded};
ghost use Rattle.road.specs.Table.{metres_of};
ghost use Rattle.dayfile.specs.Day.{most_cranes};
ghost use Rattle.workfunction.specs.Choice.{drive};
ghost use Rattle.near.specs.Count.{count};
ghost use Rattle.near.specs.Near.{DrivesGiven};

use book::Book;
use road::Road;

// Of each crane the metres from its stand to the place.
pub(crate) fn of_stands(table: &[u32], stands: &[u16], place: u16) -> [u32; Book::CRANES]
    requires { DrivesGiven stands.now place }
    ensures { result ≡ padded most_cranes (length stands.now) (drive (metres_of table.now) stands.now place) 0 }
{
    let mut metres = [0; Book::CRANES];
    for (s, stand) in stands.iter().enumerate() {
        metres[s] = Road::metres(table, usize::from(*stand), usize::from(place));
    }
    metres
}

// How many of them are at most the distance.
pub(crate) fn within(metres: &[u32], distance: u32) -> usize
    ensures { result ≡ count (length metres.now) (λ s. leb (get_or metres.now s 0) distance) }
{
    metres.iter().filter(|m| **m <= distance).count()
}
