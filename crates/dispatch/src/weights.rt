// The weights, the dual variables: new ones from net costs, and those of a plan without calls.
ghost use Rattle.std.specs.Prelude.{◌≡◌, pos, replicate};
ghost use Rattle.book.specs.Book.{follower, weight};
ghost use Rattle.dispatch.specs.Legs.{plan_room, leg_at};
ghost use Rattle.dispatch.specs.Search.{at, net_of, RenewGiven, Reweighed};

use crate::{legs, search};

// The new weights: of each stop's follower the opposite of the net cost of freeing it.
pub(crate) fn renew(new: usize, plan: &[u16], totals: &[u64], costs: &[u32], weights: &mut [i64])
    requires { RenewGiven new plan.now totals.now costs.now weights.old }
    ensures { Reweighed new (follower plan.now) (net_of (follower plan.now) (leg_at costs.now) (at totals.now)) (weight weights.old) (weight weights.new) }
{
    for p in 0..=new {
        let b = plan[p] as usize;
        let net = search::net_cost(totals[p], legs::cost(costs, p, b));
        weights[b] = -net;
    }
}

// Weights of 0.
pub(crate) fn zeros() -> [i64; legs::ROOM]
    ensures { result ≡ replicate plan_room (pos 0) }
{
    [0; legs::ROOM]
}
