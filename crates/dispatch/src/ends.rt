// The least cost of a plan's starts and calls to other ends, found from the plan. No step needs the triangle rule.
ghost use Rattle.std.specs.Prelude.{◌≡◌, length};
ghost use Rattle.road.specs.Table.{metres_of, entry};
ghost use Rattle.workfunction.specs.Plan.{stops, leg_cost, least_plan};
ghost use Rattle.dispatch.specs.Legs.{Costed};
ghost use Rattle.dispatch.specs.Insertion.{EndGiven, EndMoved, EndsGiven, EndsMoved};

use crate::instance::Instance;
use crate::matching::Matching;
use crate::{insert, legs, plan};

// Moves an end to `place`: a call there is taken in for it, and the stop that the call then follows takes the end in its stead.
fn move_end(instance: Instance, end: usize, place: u16, matching: &mut Matching<{ legs::ROOM }>)
    requires { EndGiven (entry (metres_of instance.table.now)) instance.starts.now instance.calls.now end place matching.old.plan matching.old.weights matching.old.costs }
    ensures { EndMoved (entry (metres_of instance.entry.table.now)) instance.entry.starts.now instance.entry.calls.now end place matching.old.plan matching.old.weights matching.old.costs matching.new.plan matching.new.weights matching.new.costs }
{
    let stops = instance.stops();
    legs::extend(instance.table, stops, place, &mut matching.costs[..]);
    insert::insert(
        instance.starts.len(),
        stops,
        Some(end),
        &matching.costs[..],
        &mut matching.plan[..],
        &mut matching.weights[..],
    );
    plan::replace(stops, stops as u16, end as u16, &mut matching.plan[..]);
    matching.weights[end] = 0;
    legs::put(end, place, &mut matching.costs[..]);
}

// Moves every end to its place in a list, one after another.
fn move_all(instance: Instance, to: &[u16], matching: &mut Matching<{ legs::ROOM }>)
    requires { EndsGiven (entry (metres_of instance.table.now)) instance.starts.now instance.calls.now to.now matching.old.plan matching.old.weights matching.old.costs }
    ensures { EndsMoved (entry (metres_of instance.entry.table.now)) instance.entry.starts.now instance.entry.calls.now to.now matching.new.plan matching.new.weights matching.new.costs }
{
    for (end, place) in to.iter().enumerate() {
        move_end(instance, end, *place, matching);
    }
}

// The least cost of all plans from the starts over the calls to the ends `to`; the table of leg costs can be filled anew.
pub(crate) fn least(instance: Instance, to: &[u16], matching: &mut Matching<{ legs::ROOM }>) -> u64
    requires { EndsGiven (entry (metres_of instance.table.now)) instance.starts.now instance.calls.now to.now matching.old.plan matching.old.weights matching.old.costs }
    ensures { (result ≡ least_plan (length instance.entry.starts.now) (stops instance.entry.starts.now instance.entry.calls.now) (leg_cost (entry (metres_of instance.entry.table.now)) instance.entry.starts.now instance.entry.calls.now to.now)) × Costed matching.new.costs }
{
    move_all(instance, to, matching);
    plan::cost(instance.stops(), &matching.plan[..], &matching.costs[..])
}
