// The served day as a sheet for the wall: a row for each call. Stands on `base`, `road`, `dayfile`, `workfunction`, `book` and `dispatch`.
#![tactic(auto)]

mod row;
mod rows;

ghost use Rattle.std.specs.Prelude.{◌≡◌};
ghost use Rattle.dayfile.specs.File.{written};
ghost use Rattle.sheet.specs.Sheet.{sheet_of};

use base::Refusal;
use dayfile::Day;
use dispatch::Dispatch;

// The bytes of a row.
pub const ROW: usize = 28;

// The sheet of a day, its calls served from a fresh book, into the front of a lent buffer; the test of the day, then 11 where the buffer
// is too short.
pub fn write(day: Day, table: &[u32], out: &mut [u8]) -> Result<usize, Refusal>
    ensures { written result out.new ≡ sheet_of day table.now out.old }
{
    let served = Dispatch::serve_day(day, table)?;
    let calls = served.calls;
    let length = ROW * calls;
    if out.len() < length {
        return Err(Refusal::Buffer);
    }
    rows::put(&day.requests[..calls], &served, out);
    Ok(length)
}
