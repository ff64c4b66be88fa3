// The flip of a plan along an augmenting path: the follower of one stop is freed and goes to the new call, by swaps along the parents.
ghost use Rattle.dispatch.specs.Search.{FlipGiven, PlanFlipped};

use crate::search::Search;

// Walks from a stop to the new call, which alone has the rank 0, and swaps each stop's follower with its parent's. The parents lead the
// way, so that no range is known beforehand.
pub(crate) fn flip(new: usize, stop: usize, search: &Search, plan: &mut [u16])
    requires { FlipGiven new stop search.now.parents search.now.ranks plan.old }
    ensures { PlanFlipped new stop search.now.parents plan.old plan.new }
{
    let mut here = stop;
    while search.ranks[here] != 0 {
        let parent = search.parents[here];
        let freed = plan[here];
        plan[here] = plan[parent];
        plan[parent] = freed;
        here = parent;
    }
}
