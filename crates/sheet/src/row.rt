// A row of the sheet: five columns, each a number aligned right and the byte behind it.
ghost use Rattle.std.specs.Prelude.{◌+◌, ◌^◌, ◌<◌, ◌≤◌, ◌≡◌, length};
ghost use Rattle.base.specs.Lists.{splice};
ghost use Rattle.sheet.specs.Row.{aligned, column, row_bytes, Fits, ColumnGiven};

const BLANK: u8 = 32;

const LINE_FEED: u8 = 10;

// The digit 0.
const ZERO: u8 = 48;

// The values of a row: the call's number from 0 and its place, the crane sent, the metres that it drives and the least cost after it.
#[derive(Clone, Copy)]
pub struct Row {
    pub call: u64,
    pub place: u64,
    pub crane: u64,
    pub metres: u64,
    pub least: u64,
}

// A number aligned right: its digits from the last byte back, and blanks in front of them.
fn put_aligned(n: u64, part: &mut [u8])
    requires { (0 < length part.old) × (n < 10 ^ length part.old) }
    ensures { part.new ≡ aligned (length part.old) n }
{
    let last = part.len() - 1;
    part[last] = ZERO + (n % 10) as u8;
    let mut rest = n / 10;
    for at in (0..last).rev() {
        part[at] = if rest == 0 {
            BLANK
        } else {
            ZERO + (rest % 10) as u8
        };
        rest /= 10;
    }
}

// A number aligned right in so many bytes from `at`, and the byte behind it.
fn put_column(n: u64, width: usize, end: u8, out: &mut [u8], at: usize)
    requires { ColumnGiven n width at out.old }
    ensures { out.new ≡ splice at (column width n end) out.old }
{
    put_aligned(n, &mut out[at..at + width]);
    out[at + width] = end;
}

// The 28 bytes of a row, into the buffer from `at`.
pub(crate) fn put(r: Row, out: &mut [u8], at: usize)
    requires { Fits r × (at + 28 ≤ length out.old) }
    ensures { out.new ≡ splice at (row_bytes r) out.old }
{
    put_column(r.call, 3, BLANK, out, at);
    put_column(r.place, 2, BLANK, out, at + 4);
    put_column(r.crane, 2, BLANK, out, at + 7);
    put_column(r.metres, 7, BLANK, out, at + 10);
    put_column(r.least, 9, LINE_FEED, out, at + 18);
}
