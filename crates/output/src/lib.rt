// Printing that goes on after a write that failed, for the programs that print what they try. Stands on std.
#![tactic(auto)]

ghost use Rattle.std.specs.Prelude.{IsOk};

use std::fmt::Display;
use std::io;

// What prints, where no write is told as failed: what is printed after it is written all the same, and of its own print what was before it.
#[derive(Clone, Copy)]
pub struct Onward<P> {
    pub to: P,
}

impl<P: Print> Print for Onward<P> {
    fn print<D: Display + Drop>(&self, value: D) -> io::Result<()>
        ensures { IsOk result }
    {
        let _ = self.to.print(value);
        Ok(())
    }

    fn println<D: Display + Drop>(&self, value: D) -> io::Result<()>
        ensures { IsOk result }
    {
        let _ = self.to.println(value);
        Ok(())
    }

    fn write_all(&self, bytes: &[u8]) -> io::Result<()>
        ensures { IsOk result }
    {
        let _ = self.to.write_all(bytes);
        Ok(())
    }
}
