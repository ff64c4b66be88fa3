// The test of a plan: each stop's follower may follow it, and every call and every stand follows exactly one stop.
ghost use Rattle.std.specs.Prelude.{◌≡◌, ◌&&◌, ltb, length};
ghost use Rattle.base.specs.Numbers.{number_of, unless};
ghost use Rattle.workfunction.specs.Lists.{sum_below};
ghost use Rattle.workfunction.specs.Plan.{may_follow, follows, followers_rule, once_rule, plan_rule};
ghost use Rattle.book.specs.Book.{follower};

use base::Refusal;

// 9 unless a follower is in range and may follow stop p.
#[tactic(auto, unfolding(workfunction::specs::Plan::may_follow))]
fn test_follower(cranes: usize, stops: usize, p: usize, b: usize) -> Result<(), Refusal>
    ensures { number_of result ≡ unless (ltb b stops && may_follow cranes p b) 9 }
{
    if b < stops && (b < cranes || p < b) {
        return Ok(());
    }
    Err(Refusal::Plan)
}

// 9 unless every stop's follower is in range and may follow it.
#[tactic(auto, using(base::proofs::Numbers::holds), unfolding(workfunction::specs::Plan::followers_rule, base::specs::Tests::all_below))]
fn test_followers(cranes: usize, plan: &[u16]) -> Result<(), Refusal>
    ensures { number_of result ≡ unless (followers_rule cranes (length plan.now) (follower plan.now)) 9 }
{
    for (p, b) in plan.iter().enumerate() {
        test_follower(cranes, plan.len(), p, usize::from(*b))?;
    }
    Ok(())
}

// How many stops are followed by b.
#[tactic(auto, using(crate::proofs::Counts::counted))]
fn count(plan: &[u16], b: usize) -> usize
    ensures { result ≡ sum_below (length plan.now) (follows (follower plan.now) b) }
{
    plan.iter()
        .filter(|follower| usize::from(**follower) == b)
        .count()
}

// 9 unless every follower follows exactly one stop.
#[tactic(auto, unfolding(workfunction::specs::Plan::once_rule, base::specs::Tests::all_below))]
fn test_once(plan: &[u16]) -> Result<(), Refusal>
    ensures { number_of result ≡ unless (once_rule (length plan.now) (follower plan.now)) 9 }
{
    for b in 0..plan.len() {
        if count(plan, b) != 1 {
            return Err(Refusal::Plan);
        }
    }
    Ok(())
}

// 9 unless the followers of all stops are a plan.
#[tactic(auto, using(base::proofs::Numbers::up, base::proofs::Numbers::first_stops, base::proofs::Numbers::second_decides), unfolding(workfunction::specs::Plan::plan_rule))]
pub(crate) fn test(cranes: usize, plan: &[u16]) -> Result<(), Refusal>
    ensures { number_of result ≡ unless (plan_rule cranes (length plan.now) (follower plan.now)) 9 }
{
    test_followers(cranes, plan)?;
    test_once(plan)
}
