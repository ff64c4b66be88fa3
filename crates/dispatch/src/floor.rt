// The floor: the least cost of all plans that end at the starts.
ghost use Rattle.std.specs.Prelude.{◌≡◌};
ghost use Rattle.road.specs.Table.{metres_of, entry};
ghost use Rattle.workfunction.specs.Plan.{plan_floor};
ghost use Rattle.dispatch.specs.Legs.{Costed};
ghost use Rattle.dispatch.specs.Insertion.{EndsGiven, PlanGiven};

use crate::instance::Instance;
use crate::matching::Matching;
use crate::{calls, ends, legs, plan, weights};

// From a plan to any ends.
pub(crate) fn floor(instance: Instance, matching: &mut Matching<{ legs::ROOM }>) -> u64
    requires { EndsGiven (entry (metres_of instance.table.now)) instance.starts.now instance.calls.now instance.starts.now matching.old.plan matching.old.weights matching.old.costs }
    ensures { (result ≡ plan_floor (entry (metres_of instance.entry.table.now)) instance.entry.starts.now instance.entry.calls.now) × Costed matching.new.costs }
{
    ends::least(instance, instance.starts, matching)
}

// From no plan: at first each start is followed by itself, then the calls are taken in.
pub(crate) fn of_day(instance: Instance) -> u64
    requires { PlanGiven (entry (metres_of instance.table.now)) instance.starts.now instance.calls.now }
    ensures { result ≡ plan_floor (entry (metres_of instance.entry.table.now)) instance.entry.starts.now instance.entry.calls.now }
{
    let plan = plan::own(instance.starts.len());
    let weights = weights::zeros();
    let costs = legs::zeros();
    let mut matching = Matching {
        plan,
        weights,
        costs,
    };
    let uncalled = Instance {
        calls: &instance.calls[..0],
        ..instance
    };
    legs::fill(uncalled, instance.starts, &mut matching.costs[..]);
    calls::take_all(instance, &mut matching);
    plan::cost(instance.stops(), &matching.plan[..], &matching.costs[..])
}
