// The net costs of a call, the library's beside those of the brute search: for each crane the work function after the call, with that crane
// moved to its place, less the work function before it at the stands.
use crate::positions::Leasts;
use book::Book;
use std::array;

// Whether the library tells the search's net costs, and 0 in every entry past the cranes.
pub(crate) fn alike(
    told: [i64; Book::CRANES],
    cranes: usize,
    present: u64,
    leasts: &Leasts,
) -> bool {
    let nets: [i64; Book::CRANES] = array::from_fn(|crane| if crane < cranes {
        leasts[crane % Book::CRANES]
            .wrapping_sub(present)
            .cast_signed()
    } else {
        0
    });
    told == nets
}
