// The test of weights, the dual variables: each within its range, and together vouching for the plan.
ghost use Rattle.std.specs.Prelude.{true, cond, ◌≡◌, ◌<◌, pos, ◌-ℤ◌, length};
ghost use Rattle.std.specs.Int.Signed.{le_z};
ghost use Rattle.base.specs.Numbers.{number_of, unless};
ghost use Rattle.workfunction.specs.Plan.{may_follow, vouch_rule};
ghost use Rattle.book.specs.Book.{follower, weight, weight_rule, range_rule, weights_refusal};
ghost use Rattle.book.specs.Weights.{Followed, Weighed, cost, vouch_from};

use crate::Book;
use base::Refusal;
use road::Road;

// A plan with its weights, over the legs of the table between stops and followers.
#[derive(Clone, Copy)]
pub(crate) struct Witness<'a> {
    pub table: &'a [u32],
    // The places of the starts, of the calls and of the stands.
    pub starts: &'a [u16],
    pub calls: &'a [u16],
    pub stands: &'a [u16],
    // The follower of each stop.
    pub plan: &'a [u16],
    // The weight of each follower.
    pub weights: &'a [i64],
}

// The least weight.
const LEAST: i64 = -Book::WEIGHT;

// 10 unless a weight is within its range.
#[tactic(auto, unfolding(crate::specs::Book::weight_rule))]
fn test_weight(y: i64) -> Result<(), Refusal>
    ensures { number_of result ≡ unless (weight_rule y) 10 }
{
    match y {
        LEAST..=Book::WEIGHT => Ok(()),
        _ => Err(Refusal::Weights),
    }
}

// 10 unless every weight is within its range.
#[tactic(auto, using(base::proofs::Numbers::holds, crate::proofs::Vouching::read_back), unfolding(base::specs::Tests::all_below))]
fn test_range(weights: &[i64]) -> Result<(), Refusal>
    ensures { number_of result ≡ unless (range_rule (length weights.now) (weight weights.now)) 10 }
{
    for y in weights {
        test_weight(*y)?;
    }
    Ok(())
}

// 10 unless one weight less another is at most one leg less another.
#[tactic(auto, using(crate::proofs::Vouching::weights_fit, crate::proofs::Vouching::slack_read))]
fn test_slack(y: i64, kept: i64, leg: u32, own: u32) -> Result<(), Refusal>
    requires { (weight_rule y ≡ true) × (weight_rule kept ≡ true) }
    ensures { number_of result ≡ unless (le_z (y -ℤ kept) (pos leg -ℤ pos own)) 10 }
{
    if y - kept <= i64::from(leg) - i64::from(own) {
        return Ok(());
    }
    Err(Refusal::Weights)
}

// 10 unless the inequality of stop p and follower b holds, where b may follow p: y and leg are those of b, kept and own those of
// the follower of p.
#[tactic(auto, unfolding(workfunction::specs::Plan::may_follow))]
fn test_at(
    cranes: usize,
    p: usize,
    b: usize,
    y: i64,
    kept: i64,
    leg: u32,
    own: u32,
) -> Result<(), Refusal>
    requires { (weight_rule y ≡ true) × (weight_rule kept ≡ true) }
    ensures { number_of result ≡ unless (cond (may_follow cranes p b) (le_z (y -ℤ kept) (pos leg -ℤ pos own)) true) 10 }
{
    if b < cranes || p < b {
        return test_slack(y, kept, leg, own);
    }
    Ok(())
}

impl Witness<'_> {
    // The cost of the leg from stop p to follower b.
    #[tactic(auto, unfolding(workfunction::specs::Plan::leg_cost))]
    fn leg(self, p: usize, b: usize) -> u32
        ensures { result ≡ cost self.entry p b }
    {
        let from = usize::from(Book::place_of(self.starts, self.calls, p));
        let to = usize::from(Book::place_of(self.stands, self.calls, b));
        Road::metres(self.table, from, to)
    }

    // 10 unless the inequality of stop p holds for every b that may follow it.
    #[tactic(auto, unfolding(base::specs::Tests::all_below))]
    fn test_from(self, p: usize) -> Result<(), Refusal>
        requires { (p < length self.plan.now) × Weighed (length self.plan.now) self.plan.now self.weights.now }
        ensures { number_of result ≡ unless (vouch_from self.entry p) 10 }
    {
        let kept = usize::from(self.plan[p]);
        let own = self.leg(p, kept);
        for b in 0..self.plan.len() {
            let way = self.leg(p, b);
            test_at(
                self.starts.len(),
                p,
                b,
                self.weights[b],
                self.weights[kept],
                way,
                own,
            )?;
        }
        Ok(())
    }

    // 10 unless the weights vouch for the plan.
    #[tactic(auto, using(base::proofs::Numbers::holds), unfolding(workfunction::specs::Plan::vouch_rule, base::specs::Tests::all_below))]
    fn test_vouching(self) -> Result<(), Refusal>
        requires { Weighed (length self.plan.now) self.plan.now self.weights.now }
        ensures { number_of result ≡ unless (vouch_rule (length self.entry.starts.now) (length self.entry.plan.now) (follower self.entry.plan.now) (cost self.entry) (weight self.entry.weights.now)) 10 }
    {
        for p in 0..self.plan.len() {
            self.test_from(p)?;
        }
        Ok(())
    }

    // 10 unless the weights are within their range and vouch for the plan.
    #[tactic(auto, using(base::proofs::Numbers::up, base::proofs::Numbers::first_stops, base::proofs::Numbers::second_decides, crate::proofs::Vouching::weighed))]
    pub fn test(self) -> Result<(), Refusal>
        requires { (length self.weights.now ≡ length self.plan.now) × Followed (length self.plan.now) self.plan.now self.weights.now }
        ensures { number_of result ≡ weights_refusal (length self.entry.starts.now) (length self.entry.plan.now) self.entry.plan.now self.entry.weights.now (cost self.entry) }
    {
        test_range(self.weights)?;
        self.test_vouching()
    }
}
