// The print and the sheet of a file and of the day that it holds.
ghost use Rattle.std.specs.Prelude.{◌≡◌, List, ℕ};
ghost use Rattle.road.specs.Table.{Table};
ghost use Rattle.dayfile.specs.declared.Day.{Day};
ghost use Rattle.report.specs.Put.{Blank};
ghost use Rattle.report.specs.Report.{lines_text, sheet_text, file_text, printed};

use crate::Printed;
use dayfile::Day;
use dispatch::Dispatch;
use road::Road;

// The text of a file, into a print with no text: the line of its refusal, or what is told of its day. The print is lent on to what writes it, since
// each that is handed back is 32 KB more of the stack.
pub(crate) fn of_file<F: FnOnce(Day, &[u32], &mut Printed)>(
    file: &[u8],
    tell: F,
    print: &mut Printed,
)
    requires blank { Blank print.old }
    requires callable { (day : _) (table : _) (lent : _) → Blank lent.now → F.pre tell day table lent }
    ensures { (told : Day → Table → List ℕ) → ((day : _) (table : _) (lent : _) (r : _) (after : _) → F.post tell day table lent r after → after.now ≡ printed (told day table.now)) → print.new ≡ printed (file_text told file.now) }
{
    match Day::read(file) {
        Ok(reading) => {
            let legs = Road::legs(reading.day.places);
            tell(reading.day, &reading.table[..legs], print)
        }
        Err(refused) => print.put_refused(refused.refusal, refused.index),
    }
}

// The line of a day's refusal, or the lines of its calls and the last line, into a print with no text.
pub(crate) fn lines(day: Day, table: &[u32], print: &mut Printed)
    requires { Blank print.old }
    ensures { print.new ≡ printed (lines_text day table.now) }
{
    match Dispatch::serve_day(day, table) {
        Ok(served) => {
            print.put_calls(&served);
            print.put_last(served.driven, served.home, served.floor);
        }
        Err(refusal) => print.put_refused(refusal, 0),
    }
}

// The line of a day's refusal, or its sheet, into a print with no text.
pub(crate) fn rows(day: Day, table: &[u32], print: &mut Printed)
    requires { Blank print.old }
    ensures { print.new ≡ printed (sheet_text day table.now) }
{
    match sheet::write(day, table, &mut print.text[..]) {
        Ok(length) => print.length = length,
        Err(refusal) => print.put_refused(refusal, 0),
    }
}
