// The search for net costs: Dijkstra's, by the weights, from the new call. It reads leg costs and knows no places.
ghost use Rattle.std.specs.Prelude.{true, ◌≡◌, ℕ, ◌+◌, ◌-◌, ◌<◌, ◌≤◌, pos, ◌-ℤ◌, length, MatchOption};
ghost use Rattle.road.specs.Table.{most_metres};
ghost use Rattle.book.specs.Book.{follower, weight, weight_rule};
ghost use Rattle.dispatch.specs.Legs.{plan_room, leg_at, Costed};
ghost use Rattle.dispatch.specs.Search.{at, net_base, head_of, HeadsGiven, reach, Begun, Keyed, Nearest, Relaxed, SettleGiven, RoundsGiven, SearchGiven, Searched};

use crate::{legs, plan};

// The net cost of the new call, from which the others are counted, so that none is below 0.
pub(crate) const BASE: u64 = 1_099_511_627_776;

// Weights are raised by this, so that none is below a leg.
const LIFT: i64 = 1_099_512_676_352;

// The rank of a stop that is not settled: a number and no `None`, since the theorem of the chains (`Chains`) compares ranks as numbers.
const OPEN: usize = legs::ROOM;

// The head of a stop: the weight of its follower, raised, less the leg to it.
fn head(y: i64, leg: u32) -> u64
    requires { (weight_rule y ≡ true) × (leg ≤ most_metres) }
    ensures { result ≡ head_of y leg }
{
    (y + LIFT) as u64 - leg as u64
}

// The heads of the stops below `new`.
fn heads_of(new: usize, plan: &[u16], weights: &[i64], costs: &[u32]) -> [u64; legs::ROOM]
    requires { HeadsGiven new plan.now weights.now costs.now }
    ensures { (p : ℕ) → p < new → at result p ≡ head_of (weight weights.now (follower plan.now p)) (leg_at costs.now p (follower plan.now p)) }
{
    let mut heads = [0; legs::ROOM];
    for p in 0..new {
        let b = plan[p] as usize;
        heads[p] = head(weights[b], legs::cost(costs, p, b));
    }
    heads
}

// Where in a list of open stops the first one of least key stands.
fn pick(stops: &[u16], heads: &[u64], totals: &[u64]) -> Option<usize>
    requires { Keyed stops.now heads.now totals.now }
    ensures { MatchOption result (length stops.now ≡ 0) (λ i. Nearest (length stops.now) (at stops.now) (at heads.now) (at totals.now) i) }
{
    (0..stops.len()).min_by_key(|i| {
        let p = stops[*i] as usize;
        totals[p] + heads[p]
    })
}

// Where the stops end that b may follow, of the stops below `new`.
fn limit(cranes: usize, new: usize, b: usize) -> usize
    ensures { result ≡ reach cranes new b }
{
    if b < cranes {
        return new;
    }
    b
}

// What a search knows of each stop, by its number: its total, the net cost of freeing its follower and the leg to it; its parent, the
// stop that the follower goes to; and its rank, the round in which it is settled. A list of each, since `Searched` speaks of lists.
#[derive(Drop)]
pub(crate) struct Search {
    pub totals: [u64; legs::ROOM],
    pub parents: [usize; legs::ROOM],
    pub ranks: [usize; legs::ROOM],
}

impl Search {
    // One of which nothing is known yet.
    pub(crate) fn new() -> Self {
        Search {
            totals: [0; legs::ROOM],
            parents: [0; legs::ROOM],
            ranks: [0; legs::ROOM],
        }
    }

    // At first every stop may take the new call; the new call itself is settled.
    fn begin(&mut self, new: usize, costs: &[u32])
        requires { (new < plan_room) × Costed costs.now }
        ensures { Begun new (λ p. leg_at costs.now p new) (at self.new.totals) (at self.new.parents) (at self.new.ranks) }
    {
        for (p, leg) in legs::row_to(costs, new, new + 1).iter().enumerate() {
            self.totals[p] = BASE + *leg as u64;
            self.parents[p] = new;
            self.ranks[p] = OPEN;
        }
        self.ranks[new] = 0;
    }

    // One row of work: each stop of the row takes the way over the stop `from`, of net cost `net`, where that is cheaper.
    fn relax(&mut self, row: &[u32], net: u64, from: usize)
        requires { (length row.now ≤ plan_room) × (net ≤ 4398046511104) }
        ensures { (self.new.ranks ≡ self.old.ranks) × Relaxed (length row.now) net from (at row.now) (at self.old.totals) (at self.old.parents) (at self.new.totals) (at self.new.parents) }
    {
        for (p, leg) in row.iter().enumerate() {
            let total = net + *leg as u64;
            if total < self.totals[p] {
                self.totals[p] = total;
                self.parents[p] = from;
            }
        }
    }

    // Settles stop q: one row of work, over its follower.
    fn settle(&mut self, cranes: usize, new: usize, plan: &[u16], costs: &[u32], q: usize)
        requires { SettleGiven new plan.now costs.now q self.old.totals }
        ensures { (self.new.ranks ≡ self.old.ranks) × Relaxed (reach cranes new (follower plan.now q)) (at self.old.totals q - leg_at costs.now q (follower plan.now q)) q (λ p. leg_at costs.now p (follower plan.now q)) (at self.old.totals) (at self.old.parents) (at self.new.totals) (at self.new.parents) }
    {
        let b = plan[q] as usize;
        let net = self.totals[q] - legs::cost(costs, q, b) as u64;
        let row = legs::row_to(costs, b, limit(cranes, new, b));
        self.relax(row, net, q);
    }

    // Settles the stops below `new`, each in its turn the open one of least key; the last one of the list takes its place.
    fn rounds(&mut self, cranes: usize, new: usize, plan: &[u16], heads: &[u64], costs: &[u32])
        requires { RoundsGiven cranes new plan.now heads.now costs.now self.old.totals self.old.parents self.old.ranks }
        ensures { Searched cranes new (follower plan.now) (leg_at costs.now) (at self.new.totals) (at self.new.parents) (at self.new.ranks) }
    {
        let mut stops = plan::own(new);
        for rank in 1..=new {
            let left = new - rank;
            let Some(i) = pick(&stops[..=left], heads, &self.totals[..]) else {
                return;
            };
            let q = stops[i] as usize;
            stops[i] = stops[left];
            self.ranks[q] = rank;
            self.settle(cranes, new, plan, costs, q);
        }
    }

    // The net costs of the stops of a plan whose weights vouch for it, for one more call, of the number `new`, which is followed by
    // itself for the moment.
    pub(crate) fn run(
        &mut self,
        cranes: usize,
        new: usize,
        plan: &[u16],
        weights: &[i64],
        costs: &[u32],
    )
        requires { SearchGiven cranes new plan.now weights.now costs.now }
        ensures { Searched cranes new (follower plan.now) (leg_at costs.now) (at self.new.totals) (at self.new.parents) (at self.new.ranks) }
    {
        let heads = heads_of(new, plan, weights, costs);
        self.begin(new, costs);
        self.rounds(cranes, new, plan, &heads[..], costs);
    }
}

// A net cost counted from the base, as the signed number that it is.
pub(crate) fn lowered(net: u64) -> i64
    requires { net ≤ net_base + most_metres }
    ensures { result ≡ pos net -ℤ pos net_base }
{
    net as i64 - BASE as i64
}

// The net cost of freeing the follower of a stop, from its total and the leg to that follower.
pub(crate) fn net_cost(total: u64, leg: u32) -> i64
    requires { (leg ≤ total) × (total ≤ net_base + most_metres) }
    ensures { result ≡ pos (total - leg) -ℤ pos net_base }
{
    lowered(total - leg as u64)
}
