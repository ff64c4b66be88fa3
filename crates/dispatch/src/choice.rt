// The choice of the end that is freed for a new call, by the net costs of freeing each: the crane sent, where the ends are stands.
ghost use Rattle.std.specs.Prelude.{◌≡◌, ◌+◌, MatchOption};
ghost use Rattle.book.specs.Book.{follower};
ghost use Rattle.dispatch.specs.Legs.{leg_at};
ghost use Rattle.dispatch.specs.Search.{at, net_of};
ghost use Rattle.dispatch.specs.Insertion.{Freed, Foremost, NetsGiven, ChoiceGiven, least_end};

use crate::legs;
use book::Book;

// Of each end the net cost of freeing it, and the stop that it follows. A list of each, since `Freed` and `least_end` speak of lists.
#[derive(Drop)]
pub(crate) struct Ends {
    pub nets: [u64; Book::CRANES],
    pub before: [usize; Book::CRANES],
}

impl Ends {
    // Those of a plan, by the totals of its stops.
    pub(crate) fn of(cranes: usize, new: usize, plan: &[u16], costs: &[u32], totals: &[u64]) -> Self
        requires { NetsGiven cranes new plan.now costs.now totals.now }
        ensures { Freed cranes new (follower plan.now) (net_of (follower plan.now) (leg_at costs.now) (at totals.now)) (at result.before) (at result.nets) }
    {
        let mut nets = [0; Book::CRANES];
        let mut before = [0; Book::CRANES];
        for p in 0..new {
            let b = plan[p] as usize;
            if b < cranes {
                nets[b] = totals[p] - legs::cost(costs, p, b) as u64;
                before[b] = p;
            }
        }
        Ends { nets, before }
    }

    // The first of the ends by the sum of its net cost and the way to it from the new call, then by the way, then by its number.
    fn first(&self, cranes: usize, new: usize, costs: &[u32]) -> Option<usize>
        requires { ChoiceGiven cranes new self.now.nets costs.now }
        ensures { MatchOption result (cranes ≡ 0) (λ e. Foremost cranes (λ i. at self.now.nets i + leg_at costs.now new i) (leg_at costs.now new) e) }
    {
        (0..cranes).min_by_key(|e| {
            let way = legs::cost(costs, new, *e);
            (self.nets[*e] + way as u64, way, *e)
        })
    }

    // The end of the least sum of its net cost and the way to it from the new call; among equals of the least way; then of the
    // lowest number. The 0 for no end, and no Option, is that of `least_end`.
    pub(crate) fn choose(&self, cranes: usize, new: usize, costs: &[u32]) -> usize
        requires { ChoiceGiven cranes new self.now.nets costs.now }
        ensures { result ≡ least_end cranes new (at self.now.nets) (leg_at costs.now) }
    {
        self.first(cranes, new, costs).unwrap_or(0)
    }
}
