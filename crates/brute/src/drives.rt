// The metres that each crane has driven, the library's beside those of the brute search, which adds up the drives from its own stands.
use book::Book;
use dayfile::Day;

// For each crane, by its number, the sum of its drives; 0 past the cranes.
#[derive(Clone, Copy)]
pub struct Drives {
    sums: [u64; Day::CRANES],
}

impl Drives {
    // None yet.
    pub(crate) const NONE: Drives = Drives {
        sums: [0; Day::CRANES],
    };

    // The sums with one drive more.
    pub(crate) fn add(self, crane: usize, metres: u64) -> Self {
        let mut sums = self.sums;
        let i = crane % Day::CRANES;
        sums[i] = sums[i].wrapping_add(metres);
        Self { sums }
    }

    // Whether a book has these sums, and 0 in every entry past the cranes.
    pub(crate) fn are_in(&self, book: &Book) -> bool {
        book.driven.map(u64::from) == self.sums
    }
}
