// Runs paper 11's cases on the compiled library and prints what each gives; then holds the two floors beside a search through all plans of small
// days, and beside the floors of tables that lie between the two. Stands on `base`, `road`, `dayfile`, `workfunction`, `book`, `dispatch`,
// `rough` and `output`, and on std for writing.
#![tactic(auto)]

mod days;
mod draw;
mod named;
mod plans;
mod told;

use output::Onward;
use std::io;

// Prints every line.
fn print(rt: &impl Print) -> io::Result<()> {
    named::cases(rt)?;
    named::refusals(rt)?;
    days::each(rt)?;
    days::full(rt)
}

// A write that fails is not told, and the print goes on.
fn main(rt: HostRuntime) {
    let _ = print(&Onward { to: &rt });
}
