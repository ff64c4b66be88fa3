// The leg costs as one table of numbers. Its rows are of one length, with a column for each stop: row x is for the place x, and the last
// row says of each follower at which place it is.
ghost use Rattle.std.specs.Prelude.{◌≡◌, ◌<◌, ◌≤◌, length, get_or};
ghost use Rattle.base.specs.Lists.{up_to};
ghost use Rattle.road.specs.Table.{most_places, metres_of, entry};
ghost use Rattle.workfunction.specs.Plan.{stops, place};
ghost use Rattle.book.specs.Book.{starts_of, stands_of, requests_of};
ghost use Rattle.dispatch.specs.Legs.{plan_room, follower_row, leg_at, Costed, LegTable, RowsFilled, FollowerPut, FollowersGiven, FollowersPut, TableGiven, BookGiven, ColumnFilled, StopAdded};

use crate::instance::Instance;
use book::Book;
use road::Road;

// The stops that a plan at work has room for, and the length of a row: those of a book, and one more for the call by which an end is moved.
pub(crate) const ROOM: usize = Book::STOPS + 1;

// Where the last row begins.
const LAST: usize = ROOM * Road::PLACES;

// The numbers of the whole table.
pub(crate) const COSTS: usize = ROOM * (Road::PLACES + 1);

// A table with no leg filled in.
pub(crate) fn zeros() -> [u32; COSTS]
    ensures { Costed result }
{
    [0; COSTS]
}

// The row of follower b.
fn row_of(costs: &[u32], b: usize) -> usize
    requires { (b < plan_room) × Costed costs.now }
    ensures { (result ≡ follower_row costs.now b) × (result < most_places) }
{
    costs[LAST + b] as usize
}

// The cost of the leg from stop p to follower b.
pub(crate) fn cost(costs: &[u32], p: usize, b: usize) -> u32
    requires { (p < plan_room) × ((b < plan_room) × Costed costs.now) }
    ensures { result ≡ leg_at costs.now p b }
{
    costs[ROOM * row_of(costs, b) + p]
}

// The costs of the legs to follower b from the stops below `end`.
pub(crate) fn row_to(costs: &[u32], b: usize, end: usize) -> &[u32]
    requires { (end ≤ plan_room) × ((b < plan_room) × Costed costs.now) }
    ensures { result.now ≡ up_to end (λ p. leg_at costs.now p b) }
{
    let from = ROOM * row_of(costs, b);
    let to = from + end;
    &costs[from..to]
}

// The metres to the place `to` from each place of a list.
fn fill_from(table: &[u32], places: &[u16], to: usize, row: &mut [u32])
    requires { length row.old ≤ length places.now }
    ensures { row.new ≡ up_to (length row.old) (λ p. entry (metres_of table.now) (get_or places.now p 0) to) }
{
    for (p, metres) in row.iter_mut().enumerate() {
        *metres = Road::metres(table, places[p] as usize, to);
    }
}

// The row of the place `to`: the metres to it from each stop.
fn fill_row(instance: Instance, to: usize, row: &mut [u32])
    requires { (length instance.starts.now ≤ length row.old) × (length row.old ≤ stops instance.starts.now instance.calls.now) }
    ensures { row.new ≡ up_to (length row.old) (λ p. entry (metres_of instance.entry.table.now) (place instance.entry.starts.now instance.entry.calls.now p) to) }
{
    let cranes = instance.starts.len();
    fill_from(instance.table, instance.starts, to, &mut row[..cranes]);
    fill_from(instance.table, instance.calls, to, &mut row[cranes..]);
}

// The rows of all places.
fn fill_rows(instance: Instance, costs: &mut [u32])
    requires { (stops instance.starts.now instance.calls.now ≤ plan_room) × Costed costs.old }
    ensures { RowsFilled most_places (entry (metres_of instance.entry.table.now)) instance.entry.starts.now instance.entry.calls.now costs.old costs.new }
{
    let stops = instance.stops();
    for x in 0..Road::PLACES {
        let at = ROOM * x;
        fill_row(instance, x, &mut costs[at..at + stops]);
    }
}

// Follower b is at `place` from here on.
pub(crate) fn put(b: usize, place: u16, costs: &mut [u32])
    requires { (b < plan_room) × ((place < most_places) × Costed costs.old) }
    ensures { FollowerPut b place costs.old costs.new }
{
    costs[LAST + b] = place as u32;
}

// The followers from `first` on are at these places.
fn put_all(places: &[u16], first: usize, costs: &mut [u32])
    requires { FollowersGiven places.now first costs.old }
    ensures { FollowersPut (length places.now) first places.now costs.old costs.new }
{
    for (i, place) in places.iter().enumerate() {
        put(first + i, *place, costs);
    }
}

// The whole table of a plan's legs.
pub(crate) fn fill(instance: Instance, stands: &[u16], costs: &mut [u32])
    requires { TableGiven instance.starts.now instance.calls.now stands.now costs.old }
    ensures { LegTable most_places (entry (metres_of instance.entry.table.now)) instance.entry.starts.now instance.entry.calls.now stands.now costs.new }
{
    fill_rows(instance, costs);
    put_all(stands, 0, costs);
    put_all(instance.calls, instance.starts.len(), costs);
}

// The table of a book's legs.
pub(crate) fn of_book(book: Book, table: &[u32], costs: &mut [u32])
    requires { BookGiven book costs.old }
    ensures { LegTable most_places (entry (metres_of table.now)) (starts_of book) (requests_of book) (stands_of book) costs.new }
{
    let instance = Instance {
        table,
        starts: &book.starts[..book.cranes],
        calls: &book.requests[..book.calls],
    };
    fill(instance, &book.stands[..book.cranes], costs);
}

// The column of stop p, at the place `from`: the metres from it to each place.
fn fill_column(table: &[u32], from: usize, p: usize, costs: &mut [u32])
    requires { (p < plan_room) × Costed costs.old }
    ensures { ColumnFilled most_places (entry (metres_of table.now) from) p costs.old costs.new }
{
    for x in 0..Road::PLACES {
        costs[ROOM * x + p] = Road::metres(table, from, x);
    }
}

// The call of the number `new`, at `place`, is added to the table: one column, and its row as a follower.
pub(crate) fn extend(table: &[u32], new: usize, place: u16, costs: &mut [u32])
    requires { (new < plan_room) × ((place < most_places) × Costed costs.old) }
    ensures { StopAdded (entry (metres_of table.now)) new place costs.old costs.new }
{
    fill_column(table, place as usize, new, costs);
    put(new, place, costs);
}
