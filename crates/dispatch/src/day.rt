// A whole day: what is told of it.
ghost use Rattle.std.specs.Prelude.{◌≡◌, Ok};
ghost use Rattle.dayfile.specs.Day.{day_refusal};
ghost use Rattle.book.specs.Book.{fresh_book};
ghost use Rattle.dispatch.specs.ServedDay.{day_figures, served_day};

use crate::instance::Instance;
use crate::matching::Matching;
use crate::{ServedDay, floor, home, legs, plan, serve, weights};
use book::Book;
use dayfile::Day;

// A day that is accepted, from its fresh book.
pub(crate) fn served(day: Day, fresh: Book, table: &[u32]) -> ServedDay
    requires { (day_refusal day table.now ≡ 0) × (fresh ≡ fresh_book day.cranes day.starts) }
    ensures { day_figures (Ok result) ≡ served_day day table.now }
{
    let cranes = fresh.cranes;
    let starts = fresh.starts;
    let requests = day.requests;
    let mut stands = fresh.stands;
    let plan = plan::own(cranes);
    let weights = weights::zeros();
    let costs = legs::zeros();
    let mut matching = Matching {
        plan,
        weights,
        costs,
    };
    let mut sent = [0; Book::CALLS];
    let mut metres = [0; Book::CALLS];
    let mut leasts = [0; Book::CALLS];
    legs::of_book(fresh, table, &mut matching.costs[..]);
    let instance = Instance {
        table,
        starts: &starts[..cranes],
        calls: &requests[..day.calls],
    };
    let driven = serve::serve_all(
        instance,
        &mut stands[..cranes],
        &mut matching,
        &mut sent[..],
        &mut metres[..],
        &mut leasts[..],
    );
    let floor = floor::floor(instance, &mut matching);
    let home = home::home(table, &stands[..cranes], instance.starts, &mut matching);
    ServedDay {
        calls: day.calls,
        cranes: sent,
        metres,
        leasts,
        driven,
        home,
        floor,
    }
}
