// What the programs that read a day file share: the file read, its text written, and a failure told on standard error. Stands on `dayfile`,
// `report` and `input`, and on std for reading and writing.
#![tactic(auto)]

ghost use Rattle.std.specs.Prelude.{◌≡◌, ℕ, List, Some, OnOk, IsErrOf};
ghost use Rattle.base.specs.Counts.{IsPrefixLen};
ghost use Rattle.report.specs.Report.{printed};
ghost use Rattle.programs.specs.Served.{Served, failure_text};

use dayfile::Day;
use report::Printed;
use std::fmt;
use std::io::{Read, Write};

// One byte more than the longest file has, so that a longer input is seen to be too long; nothing past it is read.
const INPUT: usize = Day::FILE_LENGTH + 1;

// A program that reads a day file and writes a text made of it.
pub trait Program {
    // The text for the bytes of a file.
    ghost text: { List ℕ → List ℕ };

    // The print of a file.
    fn print(file: &[u8]) -> Printed
        ensures value { result ≡ printed (text file.now) }
        ensures prefix_len { IsPrefixLen result.length result.text };
}

// What ended a program early.
#[derive(Clone, Copy, Debug, PartialEq, Eq)]
pub enum Failure {
    Read,
    Write,
}

impl fmt::Display for Failure {
    ghost output = { λ failure. Some (failure_text failure) };

    fn fmt<W: fmt::Write>(&self, f: &mut fmt::Formatter<W>) -> fmt::Result {
        match self {
            Failure::Read => write!(f, "read failed"),
            Failure::Write => write!(f, "write failed"),
        }
    }
}

// Writes the print of what the reader gives: of all its bytes, or of the first 27,457 where it has more. After a read that fails nothing is
// written: the text of a day that is cut short would be wrong without a sign.
pub fn serve<P: Program, R: Read, W: Write>(reader: &mut R, writer: &mut W) -> Result<(), Failure>
    ensures written { OnOk result (Served P.text (R.remaining reader.old) (R.remaining reader.new) (W.contents writer.old) (W.contents writer.new)) }
    ensures unread { IsErrOf result Failure.Read → writer.new ≡ writer.old }
{
    let mut buffer = [0; INPUT];
    let Ok(read) = input::read_all(reader, &mut buffer) else {
        return Err(Failure::Read);
    };
    let printed = P::print(&buffer[..read]);
    let length = printed.length;
    match writer.write_all(&printed.text[..length]) {
        Ok(()) => Ok(()),
        Err(_) => Err(Failure::Write),
    }
}
