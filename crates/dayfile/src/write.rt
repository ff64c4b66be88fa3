// A day written: its legs, its cranes and its calls.
ghost use Rattle.std.specs.Prelude.{◌≡◌};
ghost use Rattle.base.specs.Lists.{splice};
ghost use Rattle.road.specs.Table.{metres_of};
ghost use Rattle.dayfile.specs.File.{Room, day_bytes};

use crate::codec::Kind;
use crate::{Day, legs, stops};
use road::Road;

// The records of a day, into the front of the buffer.
pub(crate) fn put(day: Day, table: &[u32], out: &mut [u8])
    requires { Room day.places day.cranes day.calls out.old }
    ensures { out.new ≡ splice 0 (day_bytes day (metres_of table.now)) out.old }
{
    let places = day.places;
    let cranes = day.cranes;
    let calls = day.calls;
    let starts = day.starts;
    let requests = day.requests;
    let legs = Road::legs(places);
    legs::put(table, places, out);
    stops::put(Kind::Crane, &starts[..cranes], out, legs);
    stops::put(Kind::Call, &requests[..calls], out, legs + cranes);
}
