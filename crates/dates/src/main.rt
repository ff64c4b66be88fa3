// Runs paper 10's cases on the compiled library and prints what each gives; then holds the dates and the windows beside a count of days, which
// knows no month's length and compares no month. Stands on `base`, `road`, `dayfile`, `workfunction`, `book`, `dispatch`, `season` and
// `output`, and on std for writing.
#![tactic(auto)]

mod count;
mod named;
mod served;
mod year;

use output::Onward;
use std::io;

// Prints every line.
fn print(rt: &impl Print) -> io::Result<()> {
    named::dates(rt)?;
    named::windows(rt)?;
    named::tests(rt)?;
    served::days(rt, &[10, 20, 15], &[12, 22, 18])?;
    count::each(rt)?;
    year::windows(rt)
}

// A write that fails is not told, and the print goes on.
fn main(rt: HostRuntime) {
    let _ = print(&Onward { to: &rt });
}
