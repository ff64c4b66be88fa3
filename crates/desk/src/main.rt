// The program for the desk: reads a day file from standard input and writes its print to standard output. A read or a write that fails is told
// on standard error. Stands on `programs` and `report`.
#![tactic(auto)]

ghost use Rattle.report.specs.Report.{print_of};

use programs::Program;
use report::Printed;
use std::io;

// The program `desk`.
struct Desk;

impl Program for Desk {
    ghost text = { print_of };

    fn print(file: &[u8]) -> Printed {
        report::print(file)
    }
}

fn main(rt: HostRuntime) {
    if let Err(failure) = programs::serve::<Desk, _, _>(&mut rt.stdin(), &mut io::writer(&rt)) {
        let _ = eprintln!(rt; "desk: {failure}");
    }
}
