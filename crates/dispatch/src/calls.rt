// Calls taken into a plan whose ends stay where they are. No step needs the triangle rule.
ghost use Rattle.road.specs.Table.{metres_of, entry};
ghost use Rattle.dispatch.specs.Insertion.{TakeGiven, CallTaken, TakeAllGiven, CallsTaken};

use crate::instance::Instance;
use crate::matching::Matching;
use crate::{insert, legs};

// Takes in a call at `place`, after those of the instance: the end of the least net cost and way from it together follows it.
fn take(instance: Instance, place: u16, matching: &mut Matching<{ legs::ROOM }>)
    requires { TakeGiven (entry (metres_of instance.table.now)) instance.starts.now instance.calls.now place matching.old.plan matching.old.weights matching.old.costs }
    ensures { CallTaken (entry (metres_of instance.entry.table.now)) instance.entry.starts.now instance.entry.calls.now place matching.old.plan matching.old.weights matching.old.costs matching.new.plan matching.new.weights matching.new.costs }
{
    let new = instance.stops();
    legs::extend(instance.table, new, place, &mut matching.costs[..]);
    insert::insert(
        instance.starts.len(),
        new,
        None,
        &matching.costs[..],
        &mut matching.plan[..],
        &mut matching.weights[..],
    );
}

// Takes in all calls, one after another, into a plan without calls.
pub(crate) fn take_all(instance: Instance, matching: &mut Matching<{ legs::ROOM }>)
    requires { TakeAllGiven (entry (metres_of instance.table.now)) instance.starts.now instance.calls.now matching.old.plan matching.old.weights matching.old.costs }
    ensures { CallsTaken (entry (metres_of instance.entry.table.now)) instance.entry.starts.now instance.entry.calls.now matching.old.plan matching.old.weights matching.old.costs matching.new.plan matching.new.weights matching.new.costs }
{
    for (i, place) in instance.calls.iter().enumerate() {
        let before = Instance {
            calls: &instance.calls[..i],
            ..instance
        };
        take(before, *place, matching);
    }
}
