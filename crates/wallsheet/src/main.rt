// The program for the wall: reads a day file from standard input and writes the sheet of its day to standard output. A read or a write that
// fails is told on standard error. Stands on `programs` and `report`.
#![tactic(auto)]

ghost use Rattle.report.specs.Report.{sheet_print_of};

use programs::Program;
use report::Printed;
use std::io;

// The program `wallsheet`.
struct Wallsheet;

impl Program for Wallsheet {
    ghost text = { sheet_print_of };

    fn print(file: &[u8]) -> Printed {
        report::print_sheet(file)
    }
}

fn main(rt: HostRuntime) {
    if let Err(failure) = programs::serve::<Wallsheet, _, _>(
        &mut rt.stdin(),
        &mut io::writer(&rt),
    ) {
        let _ = eprintln!(rt; "wallsheet: {failure}");
    }
}
