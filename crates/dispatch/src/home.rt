// The way home: the least cost of all plans without calls from the stands to the starts, which is their distance.
ghost use Rattle.std.specs.Prelude.{[], ◌≡◌, length};
ghost use Rattle.road.specs.Table.{metres_of, entry};
ghost use Rattle.workfunction.specs.Plan.{stops, leg_cost, least_plan};
ghost use Rattle.dispatch.specs.Insertion.{HomeGiven};

use crate::instance::Instance;
use crate::matching::Matching;
use crate::{ends, legs, plan, weights};

// At first each stand is followed by itself. The table of leg costs is filled anew.
// Its first list is that of the stands and it has no call, so that no caller has an instance to lend.
pub(crate) fn home(
    table: &[u32],
    stands: &[u16],
    starts: &[u16],
    matching: &mut Matching<{ legs::ROOM }>,
) -> u64
    requires { HomeGiven (entry (metres_of table.now)) stands.now starts.now matching.old.costs }
    ensures { result ≡ least_plan (length stands.now) (stops stands.now []) (leg_cost (entry (metres_of table.now)) stands.now [] starts.now) }
{
    let plan = plan::own(stands.len());
    let weights = weights::zeros();
    matching.plan = plan;
    matching.weights = weights;
    let uncalled = Instance {
        table,
        starts: stands,
        calls: &stands[..0],
    };
    legs::fill(uncalled, stands, &mut matching.costs[..]);
    ends::least(uncalled, starts, matching)
}
