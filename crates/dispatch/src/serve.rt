// Serving calls: one, and all of a day in turn, from a plan with weights that vouch for it.
ghost use Rattle.std.specs.Prelude.{[], ℕ, ◌≡◌, ◌<◌, length, get_or};
ghost use Rattle.road.specs.Table.{metres_of, entry};
ghost use Rattle.dispatch.specs.Insertion.{Roads, Kept, CallGiven, CallServed, DayGiven, DayDone};

use crate::instance::Instance;
use crate::matching::Matching;
use crate::{insert, legs, plan};
use road::Road;

// A call that is served: the crane sent, the metres that it drives, the least cost after it.
#[derive(Clone, Copy)]
pub(crate) struct Step {
    pub crane: usize,
    pub metres: u32,
    pub least: u64,
}

// Serves a call at `place`, after those of the instance, by the crane that is picked.
pub(crate) fn serve_call<const N: usize>(
    instance: Instance,
    place: u16,
    pick: Option<usize>,
    stands: &mut [u16],
    matching: &mut Matching<N>,
) -> Step
    requires { CallGiven (entry (metres_of instance.table.now)) instance.starts.now instance.calls.now place pick stands.old matching.old.plan matching.old.weights matching.old.costs }
    ensures served { CallServed (entry (metres_of instance.entry.table.now)) instance.entry.starts.now instance.entry.calls.now place pick stands.old matching.old.plan matching.old.weights matching.old.costs (record { crane = result.crane; metres = result.metres; least = result.least }) stands.new matching.new.plan matching.new.weights matching.new.costs }
    ensures sized { (length matching.new.plan ≡ length matching.old.plan) × (length matching.new.weights ≡ length matching.old.weights) }
{
    let cranes = instance.starts.len();
    let new = instance.stops();
    legs::extend(instance.table, new, place, &mut matching.costs[..]);
    let crane = insert::insert(
        cranes,
        new,
        pick,
        &matching.costs[..],
        &mut matching.plan[..],
        &mut matching.weights[..],
    );
    let metres = Road::metres(instance.table, stands[crane] as usize, place as usize);
    stands[crane] = place;
    matching.weights[crane] = 0;
    legs::put(crane, place, &mut matching.costs[..]);
    Step {
        crane,
        metres,
        least: plan::cost(new + 1, &matching.plan[..], &matching.costs[..]),
    }
}

// Serves all calls in turn, and answers the sum of the drives.
// The figures go into one array of each kind and not into a list of `Step`, since `ServedDay` hands them out so.
pub(crate) fn serve_all(
    instance: Instance,
    stands: &mut [u16],
    matching: &mut Matching<{ legs::ROOM }>,
    cranes: &mut [u16],
    metres: &mut [u32],
    leasts: &mut [u64],
) -> u64
    requires { DayGiven (entry (metres_of instance.table.now)) instance.starts.now instance.calls.now stands.old matching.old.plan matching.old.weights matching.old.costs cranes.old metres.old leasts.old }
    ensures done { (n : ℕ) (d : ℕ → ℕ → ℕ) → Roads n d (entry (metres_of instance.entry.table.now)) → Kept n d instance.entry.starts.now [] stands.old matching.old.plan matching.old.weights matching.old.costs → ((i : ℕ) → i < length instance.entry.calls.now → get_or instance.entry.calls.now i 0 < n) → DayDone n d instance.entry.starts.now instance.entry.calls.now stands.old cranes.old metres.old leasts.old stands.new matching.new.plan matching.new.weights matching.new.costs cranes.new metres.new leasts.new result }
    ensures sized { (length matching.new.plan ≡ length matching.old.plan) × (length matching.new.weights ≡ length matching.old.weights) }
{
    let mut driven = 0;
    for (i, place) in instance.calls.iter().enumerate() {
        let before = Instance {
            calls: &instance.calls[..i],
            ..instance
        };
        let step = serve_call(before, *place, None, stands, matching);
        cranes[i] = step.crane as u16;
        metres[i] = step.metres;
        leasts[i] = step.least;
        driven += step.metres as u64;
    }
    driven
}
