// One more call taken into a plan and its weights, in the steps of section 3 of source document 000: the search, the net costs, the pick of
// an end, the new weights and the flip.
ghost use Rattle.std.specs.Prelude.{◌≡◌, set};
ghost use Rattle.book.specs.Book.{follower};
ghost use Rattle.dispatch.specs.Legs.{leg_at};
ghost use Rattle.dispatch.specs.Search.{at};
ghost use Rattle.dispatch.specs.Insertion.{ChoiceGiven, least_end, picked, Found, FindGiven, InsertGiven, CallInserted};

use crate::choice::Ends;
use crate::search::Search;
use crate::{flip, weights};

// The search for the net costs of the call of the number `new`, which is followed by itself for the moment; and the ends, by it.
pub(crate) fn find(
    cranes: usize,
    new: usize,
    costs: &[u32],
    weights: &[i64],
    plan: &mut [u16],
    search: &mut Search,
) -> Ends
    requires { FindGiven cranes new plan.old weights.now costs.now }
    ensures { (plan.new ≡ set plan.old new new) × Found cranes new (follower plan.new) (leg_at costs.now) (at search.new.totals) (at search.new.parents) (at search.new.ranks) (at result.before) (at result.nets) }
{
    plan[new] = new as u16;
    // Step 1: the search for an augmenting path to every stop.
    search.run(cranes, new, plan, weights, costs);
    // Step 2: the net cost of every end.
    Ends::of(cranes, new, plan, costs, &search.totals[..])
}

// The end that is picked: the given one, else the least.
fn end(pick: Option<usize>, cranes: usize, new: usize, ends: &Ends, costs: &[u32]) -> usize
    requires { ChoiceGiven cranes new ends.now.nets costs.now }
    ensures { result ≡ picked pick (least_end cranes new (at ends.now.nets) (leg_at costs.now)) }
{
    let Some(end) = pick else {
        return ends.choose(cranes, new, costs);
    };
    end
}

// Takes in the call of the number `new` for the end that is given, or else for the least one, and answers the end that now follows it.
pub(crate) fn insert(
    cranes: usize,
    new: usize,
    pick: Option<usize>,
    costs: &[u32],
    plan: &mut [u16],
    weights: &mut [i64],
) -> usize
    requires { InsertGiven cranes new pick plan.old weights.old costs.now }
    ensures { CallInserted cranes new pick costs.now plan.old weights.old result plan.new weights.new }
{
    let mut search = Search::new();
    let ends = find(cranes, new, costs, weights, plan, &mut search);
    // Step 3: the end of the smallest sum, or the one given.
    let end = end(pick, cranes, new, &ends, costs);
    // Step 4: the new weights, and the plan flipped along the path to that end.
    weights::renew(new, plan, &search.totals[..], costs, weights);
    flip::flip(new, ends.before[end], &search, plan);
    end
}
