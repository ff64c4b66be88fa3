// Books entry by entry, those past the counts too.
use crate::line;
use book::Book;

// A book of zeros.
pub(crate) const ZEROS: Book = Book {
    cranes: 0,
    calls: 0,
    starts: [0; Book::CRANES],
    stands: [0; Book::CRANES],
    requests: [0; Book::CALLS],
    plan: [0; Book::STOPS],
    weights: [0; Book::STOPS],
    driven: [0; Book::CRANES],
};

// Whether two books are the same in every entry, those past their counts too. `Book` derives no equality: two books are the same by the
// entries within their counts.
pub(crate) fn same(a: Book, b: Book) -> bool {
    (a.cranes == b.cranes)
        & (a.calls == b.calls)
        & (a.starts == b.starts)
        & (a.stands == b.stands)
        & (a.requests == b.requests)
        & (a.plan == b.plan)
        & (a.weights == b.weights)
        & (a.driven == b.driven)
}

// A book with this place or follower, this weight and these metres in every entry past its counts.
pub(crate) fn padded(book: Book, stop: u16, weight: i64, metres: u32) -> Book {
    let mut other = book;
    line::set_rest(&mut other.starts, book.cranes, stop);
    line::set_rest(&mut other.stands, book.cranes, stop);
    line::set_rest(&mut other.driven, book.cranes, metres);
    line::set_rest(&mut other.requests, book.calls, stop);
    let stops = book.cranes.wrapping_add(book.calls);
    line::set_rest(&mut other.plan, stops, stop);
    line::set_rest(&mut other.weights, stops, weight);
    other
}
