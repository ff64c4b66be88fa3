// The sheet of a small day, byte by byte beside the figures of the brute search. What must stand at a byte is worked out from its index in
// the row, which shares nothing with how `sheet` writes one.
use crate::positions::Sent;
use base::Refusal;
use dayfile::Day;

// The bytes of a row.
const ROW: usize = 28;

// Room for the rows of six calls, and some bytes more.
const ROOM: usize = 180;

// What stands in every byte before.
const BEFORE: u8 = 9;

// What a digit at each byte of a row counts, column by column; 0 at the byte behind a column.
const POWERS: [u64; ROW] = [
    100,
    10,
    1,
    0,
    10,
    1,
    0,
    10,
    1,
    0,
    1_000_000,
    100_000,
    10_000,
    1_000,
    100,
    10,
    1,
    0,
    100_000_000,
    10_000_000,
    1_000_000,
    100_000,
    10_000,
    1_000,
    100,
    10,
    1,
    0,
];

// A row by the search: the call, its place, and the crane that is sent.
#[derive(Clone, Copy)]
pub struct Row {
    pub call: usize,
    pub place: u16,
    pub sent: Sent,
}

impl Row {
    // The number whose digit stands at a byte.
    fn value(self, at: usize) -> u64 {
        match at {
            0..=2 => self.call as u64,
            3..=5 => u64::from(self.place),
            6..=8 => self.sent.crane as u64,
            9..=16 => self.sent.metres,
            _ => self.sent.least,
        }
    }

    // The byte that must stand there, where a digit counts so much.
    fn byte(self, at: usize, power: u64) -> u8 {
        if power == 0 {
            return if at == ROW - 1 { b'\n' } else { b' ' };
        }
        let value = self.value(at);
        if value < power && 1 < power {
            return b' ';
        }
        b'0' + (value / power % 10) as u8
    }
}

// What the library gives as the sheet of a day: the length or the refusal, and the buffer after it.
#[derive(Clone, Copy)]
pub struct Posted {
    length: Result<usize, Refusal>,
    bytes: [u8; ROOM],
}

impl Posted {
    // The sheet of a small day, into a buffer with bytes to spare.
    pub(crate) fn new(day: Day, run: &[u32]) -> Self {
        let mut bytes = [BEFORE; ROOM];
        let length = sheet::write(day, run, &mut bytes);
        Self { length, bytes }
    }

    // Whether the row of a call is the search's.
    pub(crate) fn has(&self, row: Row) -> bool {
        self.bytes
            .chunks_exact(ROW)
            .nth(row.call)
            .is_some_and(|bytes| {
                bytes
                    .iter()
                    .zip(&POWERS)
                    .enumerate()
                    .all(|(at, (&byte, &power))| byte == row.byte(at, power))
            })
    }

    // Whether the bytes from an index on are as before.
    fn is_kept(&self, from: usize) -> bool {
        self.bytes.iter().skip(from).all(|&byte| byte == BEFORE)
    }

    // Whether the sheet has so many rows and no byte more.
    pub(crate) fn ends(&self, calls: usize) -> bool {
        self.length.is_ok_and(|length| {
            length / ROW == calls && length % ROW == 0 && self.is_kept(length)
        })
    }

    // Whether the day is refused by a number, and the buffer is as before.
    pub(crate) fn is_refused(&self, number: u8) -> bool {
        base::number(self.length) == number && self.is_kept(0)
    }
}
