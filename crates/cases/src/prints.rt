// What the programs print, byte for byte: case A, other days, and refusals.
use crate::line;
use report::Printed;
use std::io;

// A text on lines of its own, and whether every byte past it is 0, 1 or 0.
fn show(rt: &impl Print, printed: Printed) -> io::Result<()> {
    let text = printed.text;
    let end = printed.length.min(report::TEXT);
    print!(rt; "\n")?;
    rt.write_all(&text[..end])?;
    print!(rt; " {}", u8::from(line::rest_is(0, &text, end)))
}

// The print of a file, and its sheet.
fn print(rt: &impl Print, file: &[u8]) -> io::Result<()> {
    show(rt, report::print(file))?;
    show(rt, report::print_sheet(file))
}

// Case A, given as its file. Then one place and one crane: no calls, and one call.
pub(crate) fn days(rt: &impl Print, file: &[u8]) -> io::Result<()> {
    line::begin(rt, 32)?;
    print(rt, file)?;
    print(rt, b"\x02\0\0\0\0\0\0\0\0\0\0\0")?;
    print(rt, b"\x02\0\0\0\0\0\0\0\0\0\0\0\x03\0\0\0\0\0\0\0\0\0\0\0")
}

// An empty file, 13 bytes, legs missing, and legs 10, 26, 15.
pub(crate) fn refusals(rt: &impl Print) -> io::Result<()> {
    line::begin(rt, 33)?;
    print(rt, b"")?;
    print(rt, b"\x02\0\0\0\0\0\0\0\0\0\0\0\0")?;
    print(
        rt,
        b"\x01\0\0\0\x01\0\0\0\x0a\0\0\0\x01\0\0\0\x02\0\0\0\x14\0\0\0\x02\0\0\0\0\0\0\0\0\0\0\0",
    )?;
    print(
        rt,
        b"\x01\0\0\0\x01\0\0\0\x0a\0\0\0\x01\0\0\0\x02\0\0\0\x1a\0\0\0\x01\0\x01\0\x02\0\0\0\x0f\0\0\0\x02\0\0\0\0\0\0\0\0\0\0\0",
    )
}
