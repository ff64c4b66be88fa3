// Books that come back with other weights that vouch: stretched together with the legs, and shifted towards the ends of their range.
ghost use Rattle.std.specs.Prelude.{◌<◌};

use crate::roads::Square;
use crate::search;
use crate::search::{Desk, Sides, Site};
use crate::small::Counts;
use crate::tally::{Group, Outcome};
use base::Refusal;
use book::Book;

// No weight of a small day is more than this, nor less than its opposite.
const SMALL: i64 = 1_000_000_000;

// So far can such a weight be shifted, doubled before.
const SHIFT: i64 = Book::WEIGHT - SMALL - SMALL;

// A book with every weight doubled and shifted, those past its counts too.
fn restored(book: Book, shift: i64) -> Book {
    Book {
        weights: book
            .weights
            .map(|weight| weight.wrapping_mul(2).wrapping_add(shift)),
        ..book
    }
}

// One call more, where the book of the sides comes back with its weights doubled and shifted: by the crane so many numbers behind the quoted one.
fn called(
    sides: &Sides,
    site: &Site,
    place: u16,
    shift: i64,
    behind: u64,
) -> Result<Sides, Refusal> {
    let back = Sides {
        book: restored(sides.book, shift),
        ..*sides
    };
    back.agreed(site)?.call(site, place, behind)
}

// A random day of five calls: it is served over its legs and over legs twice as long; the first book comes back over the long legs, with the
// metres driven over the short ones.
fn stretched(counts: Counts, number: usize, square: &Square) -> Result<Sides, Refusal> {
    let day = counts.drawn_day(number);
    let plain = search::day(day, square)?;
    let sides = search::day(day, &square.doubled())?;
    Ok(Sides {
        book: plain.book,
        desk: Desk {
            drives: plain.desk.drives,
            ..sides.desk
        },
        outcome: Outcome {
            agree: sides.outcome.agree && plain.outcome.agree,
            ..sides.outcome
        },
        ..sides
    })
}

// The random day of a number too: its book comes back with its weights shifted up, not at all, and down, by the quoted crane and by the next one.
fn add(before: Group, counts: Counts, number: usize) -> Group {
    let place = counts.drawn_place(number);
    let square = counts.drawn_square(number, 1_000);
    let site = Site::new(&square.doubled(), counts.places, counts.cranes);
    let sides = stretched(counts, number, &square);
    [SHIFT, 0, -SHIFT].iter().fold(before, |group, &shift| {
        let by = |behind| search::outcome(sides.and_then(|sides| called(
            &sides, &site, place, shift, behind,
        )));
        group.add(by(0), by(1))
    })
}

// So many days of one size too.
fn some(before: Group, places: usize, cranes: usize, days: usize) -> Group
    requires { 0 < places }
{
    let counts = Counts {
        places,
        cranes,
        calls: 5,
    };
    (0..days).fold(before, |group, number| add(group, counts, number))
}

// Days of three sizes.
pub(crate) fn all() -> Group {
    some(some(some(Group::NONE, 5, 4, 40), 4, 2, 60), 3, 3, 60)
}
