// What the programs print: a day file read, its calls served, and a line or a row for each, or the line of a refusal. Stands on `base`,
// `road`, `dayfile`, `workfunction`, `book`, `dispatch` and `sheet`, and on the kit's `itoa`.
#![tactic(auto)]

mod day;
mod text;

ghost use Rattle.std.specs.Prelude.{◌≡◌};
ghost use Rattle.base.specs.Counts.{IsPrefixLen};
ghost use Rattle.report.specs.Report.{print_of, sheet_print_of, printed};

// The bytes that the text of a print has room for; the longest print fits.
pub const TEXT: usize = 32_768;

// A print: its text stands in the first `length` bytes, and the bytes past them are 0. An array with a length beside it, since memory is
// fixed, and `printed` says what stands past the text.
#[derive(Clone, Copy)]
pub struct Printed {
    pub length: usize,
    pub text: [u8; TEXT],
}

// A print with no text.
const EMPTY: Printed = Printed {
    length: 0,
    text: [0; TEXT],
};

// The print of `desk` for the bytes of a day file. Nothing is refused here: of a file that is refused, the print is the line of
// the refusal. That the length is within the text follows, and is said so that a caller may lend the part.
pub fn print(file: &[u8]) -> Printed
    ensures value { result ≡ printed (print_of file.now) }
    ensures prefix_len { IsPrefixLen result.length result.text }
{
    let mut print = EMPTY;
    day::of_file(file, day::lines, &mut print);
    print
}

// The print of `wallsheet`: the sheet of a day file, or the line of its refusal.
pub fn print_sheet(file: &[u8]) -> Printed
    ensures value { result ≡ printed (sheet_print_of file.now) }
    ensures prefix_len { IsPrefixLen result.length result.text }
{
    let mut print = EMPTY;
    day::of_file(file, day::rows, &mut print);
    print
}
