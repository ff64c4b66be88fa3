// The rows of all calls.
ghost use mathlib.Core.List.{flat_map};
ghost use Rattle.std.specs.Prelude.{◌≡◌, length};
ghost use Rattle.base.specs.Lists.{up_to, splice};
ghost use Rattle.sheet.specs.Row.{row_bytes};
ghost use Rattle.sheet.specs.Sheet.{row_at, RowsGiven};

use crate::row::Row;
use crate::{ROW, row};
use dispatch::ServedDay;

// The number of the first call, as in the print.
const FIRST: u64 = 0;

// A row for each call, into the front of the buffer: its place, and the crane, the metres and the least of the served day at the same index.
pub(crate) fn put(requests: &[u16], served: &ServedDay, out: &mut [u8])
    requires { RowsGiven requests.now served.now.cranes served.now.metres served.now.leasts out.old }
    ensures { out.new ≡ splice 0 (flat_map row_bytes (up_to (length requests.now) (row_at requests.now served.now.cranes served.now.metres served.now.leasts))) out.old }
{
    for (i, place) in requests.iter().enumerate() {
        let r = Row {
            call: FIRST + i as u64,
            place: u64::from(*place),
            crane: u64::from(served.cranes[i]),
            metres: u64::from(served.metres[i]),
            least: served.leasts[i],
        };
        row::put(r, out, ROW * i);
    }
}
