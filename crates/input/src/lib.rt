// Reading all of a reader, as standard input, for the programs. Stands on std, and on `base` for its contracts.
#![tactic(auto)]

ghost use Rattle.std.specs.Prelude.{◌≡◌, ◌<◌, length, take, IfOk, IfErr};
ghost use Rattle.std.specs.Io.KnownBytes.{Consumes, IsAtEnd};
ghost use Rattle.base.specs.Counts.{IsPrefixLen};

use std::io;
use std::io::{ErrorKind, Read};

// How often one read is tried where a signal interrupts it each time. After that many it has failed, so that the program ends.
const TRIES: usize = 1_000_000;

// A read that failed, and how many bytes were read before it.
#[derive(Clone, Copy, Debug, PartialEq, Eq)]
pub struct ReadFailed {
    pub length: usize,
}

// Reads into the front of the buffer until the buffer is full, the input has ended or a read fails: the number of bytes. Of a reader whose
// bytes are known these are the next ones, all of them where the buffer has room. Which bytes arrive from standard input is open: the
// contract of its `read` says nothing of them.
pub fn read_all<R: Read>(reader: &mut R, buffer: &mut [u8]) -> Result<usize, ReadFailed>
    ensures count { IfOk result (λ count. IsPrefixLen count buffer.new) }
    ensures bytes { IfOk result (λ count. Consumes (R.remaining reader.old) (R.remaining reader.new) (take count buffer.new)) }
    ensures end { IfOk result (λ count. count < length buffer.new → IsAtEnd (R.remaining reader.new)) }
    ensures failed { IfErr result (λ failed. IsPrefixLen failed.length buffer.new) }
    ensures length { length buffer.new ≡ length buffer.old }
{
    let mut done = 0;
    // The step is what was read, so no range counts the turns.
    while done < buffer.len() {
        let Ok(count) = read_some(reader, &mut buffer[done..]) else {
            return Err(ReadFailed { length: done });
        };
        if count == 0 {
            break;
        }
        done += count;
    }
    Ok(done)
}

// One read into the front of the buffer, tried again where it is interrupted: the number of bytes, 0 where the input has ended. std's
// `read_exact` tries again too, but tells no count where the input ends, and its `read_to_end` allocates.
fn read_some<R: Read>(reader: &mut R, buffer: &mut [u8]) -> io::Result<usize>
    ensures count { IfOk result (λ count. IsPrefixLen count buffer.new) }
    ensures bytes { IfOk result (λ count. Consumes (R.remaining reader.old) (R.remaining reader.new) (take count buffer.new)) }
    ensures end { IfOk result (λ count. count ≡ 0 → 0 < length buffer.new → IsAtEnd (R.remaining reader.new)) }
{
    for _ in 0..TRIES {
        match reader.read(buffer) {
            Err(error) if error.kind() == ErrorKind::Interrupted => {}
            outcome => return outcome,
        }
    }
    Err(io::Error::from(ErrorKind::Interrupted))
}
