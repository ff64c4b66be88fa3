// The cost of a plan, and lists of followers: that of a plan without calls, one follower in another's place.
ghost use Rattle.std.specs.Prelude.{◌++◌, ◌≡◌, ◌≤◌, length, drop};
ghost use Rattle.base.specs.Lists.{up_to, padded};
ghost use Rattle.workfunction.specs.Plan.{plan_cost};
ghost use Rattle.book.specs.Book.{follower};
ghost use Rattle.dispatch.specs.Legs.{plan_room, leg_at, CostGiven};
ghost use Rattle.dispatch.specs.Insertion.{instead as Insertion·instead};

use crate::legs;

// The list in which each entry below a count is its own number: without a call, each start is followed by its own end.
pub(crate) fn own(count: usize) -> [u16; legs::ROOM]
    requires { count ≤ plan_room }
    ensures { result ≡ padded plan_room count (λ i. i) 0 }
{
    let mut list = [0; legs::ROOM];
    for i in 0..count {
        list[i] = i as u16;
    }
    list
}

// Of a follower: the new one where it is the old one.
fn instead(old: u16, new: u16, b: u16) -> u16
    ensures { result ≡ Insertion·instead old new b }
{
    if b == old {
        return new;
    }
    b
}

// The stop below a count that has the follower `old` has `new` instead.
pub(crate) fn replace(count: usize, old: u16, new: u16, list: &mut [u16])
    requires { count ≤ length list.old }
    ensures { list.new ≡ up_to count (λ p. Insertion·instead old new (follower list.old p)) ++ drop count list.old }
{
    for b in list[..count].iter_mut() {
        *b = instead(old, new, *b);
    }
}

// The cost of a plan: the sum of the legs from each stop to its follower.
pub(crate) fn cost(stops: usize, plan: &[u16], costs: &[u32]) -> u64
    requires { CostGiven stops plan.now costs.now }
    ensures { result ≡ plan_cost stops (leg_at costs.now) (follower plan.now) }
{
    (0..stops)
        .map(|p| legs::cost(costs, p, plan[p] as usize) as u64)
        .sum()
}
