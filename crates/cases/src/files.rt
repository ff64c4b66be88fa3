// Day files: every refusal of a file with its record, the order of the tests, and files that are read and written back. Prints four numbers
// of each file: the number that reading gives, the record's index, whether the day that was read is written back byte for byte, 1 or 0, and the
// sum of all 2,016 entries of its table. That is the sum of the legs where a table is 0 past them, and 0 for a refused file.
use crate::{legs, line};
use dayfile::{Day, Reading};
use legorder::Pair;
use road::Road;
use std::io;

// A record of a day file.
#[derive(Clone, Copy)]
pub struct Record {
    pub kind: u8,
    pub first: u16,
    pub second: u16,
    pub metres: u32,
}

impl Record {
    // The bytes of the record.
    fn bytes(self) -> [u8; Day::RECORD_LENGTH] {
        let [a, b] = self.first.to_le_bytes();
        let [c, d] = self.second.to_le_bytes();
        let [e, f, g, h] = self.metres.to_le_bytes();
        [self.kind, 0, a, b, c, d, 0, 0, e, f, g, h]
    }
}

// No record.
const NONE: Record = Record {
    kind: 0,
    first: 0,
    second: 0,
    metres: 0,
};

// A record of another kind.
const ODD: Record = Record {
    kind: 4,
    first: 0,
    second: 0,
    metres: 0,
};

// The records of the longest file, and one more.
const LONG: usize = Day::FILE_LENGTH / Day::RECORD_LENGTH + 1;

// A leg.
fn leg(first: u16, second: u16, metres: u32) -> Record {
    Record {
        kind: 1,
        first,
        second,
        metres,
    }
}

// A crane at a place.
fn crane(place: u16) -> Record {
    Record {
        kind: 2,
        first: place,
        second: 0,
        metres: 0,
    }
}

// A call at a place.
fn call(place: u16) -> Record {
    Record {
        kind: 3,
        first: place,
        second: 0,
        metres: 0,
    }
}

// Whether a day that is read of a file is written back byte for byte, with the legs of the table that is read.
fn comes_back(reading: Reading, bytes: &[u8]) -> bool {
    let mut buffer = [7; Day::FILE_LENGTH];
    let Some(legs) = reading.table.get(..Road::legs(reading.day.places)) else {
        return false;
    };
    let length = reading.day.write(legs, &mut buffer).unwrap_or(0);
    buffer.get(..length).is_some_and(|written| written == bytes)
}

// The sum of all entries of a table.
fn sum(table: &[u32]) -> u64 {
    table
        .iter()
        .fold(0u64, |sum, &metres| sum.wrapping_add(u64::from(metres)))
}

// Reads a file.
fn read(rt: &impl Print, bytes: &[u8]) -> io::Result<()> {
    match Day::read(bytes) {
        Ok(reading) => {
            let back = u8::from(comes_back(reading, bytes));
            print!(rt; " 0 0 {back} {},", sum(&reading.table))
        }
        Err(error) => print!(rt; " {} {} 0 0,", u8::from(error.refusal), error.index),
    }
}

// Four records, of which the last ones may be missing: then their bytes are 0.
fn bytes_of(records: &[Record]) -> [[u8; Day::RECORD_LENGTH]; 4] {
    let mut file = [[0; Day::RECORD_LENGTH]; 4];
    for (bytes, record) in file.iter_mut().zip(records.iter()) {
        *bytes = record.bytes();
    }
    file
}

// Reads a file of up to four records.
fn records(rt: &impl Print, records: &[Record]) -> io::Result<()> {
    let file = bytes_of(records);
    let many = records.len().min(4);
    read(rt, file[..many].as_flattened())
}

// Reads so many bytes of such a file, with one byte set.
fn short(
    rt: &impl Print,
    records: &[Record],
    length: usize,
    at: usize,
    byte: u8,
) -> io::Result<()> {
    let mut file = bytes_of(records);
    line::set(file.as_flattened_mut(), at, byte);
    let bytes = file.as_flattened();
    read(rt, bytes.get(..length).unwrap_or(bytes))
}

// A file of so many legs in their order, the last of so many metres and the others of 1, cranes and calls, and one record more.
#[derive(Clone, Copy)]
pub struct Long {
    pub legs: usize,
    pub metres: u32,
    pub cranes: usize,
    pub calls: usize,
    pub last: Record,
}

impl Long {
    // The record at an index, where a leg there has these places.
    fn record(self, index: usize, places: Pair) -> Record {
        let cranes = self.legs.wrapping_add(self.cranes);
        let calls = cranes.wrapping_add(self.calls);
        if index.wrapping_add(1) == self.legs {
            leg(places.first, places.second, self.metres)
        } else if index < self.legs {
            leg(places.first, places.second, 1)
        } else if index < cranes {
            crane(0)
        } else if index < calls {
            call(0)
        } else if index == calls {
            self.last
        } else {
            NONE
        }
    }

    // Reads so many bytes of the file.
    fn read(self, rt: &impl Print, length: usize) -> io::Result<()> {
        let mut file = [[0; Day::RECORD_LENGTH]; LONG];
        let mut places = legs::FIRST;
        for (index, bytes) in file.iter_mut().enumerate() {
            *bytes = self.record(index, places).bytes();
            places = legs::after(places);
        }
        let bytes = file.as_flattened();
        read(rt, bytes.get(..length).unwrap_or(bytes))
    }
}

// Case A, given as its file. Legs 10, 25, 15 and a crane; the triangle rule; a crane alone. Then the metres of a leg, and the triangle rule over a
// leg of 0.
pub(crate) fn metres(rt: &impl Print, file: &[u8]) -> io::Result<()> {
    line::begin(rt, 5)?;
    read(rt, file)?;
    records(rt, &[leg(0, 1, 10), leg(0, 2, 25), leg(1, 2, 15), crane(0)])?;
    records(rt, &[leg(0, 1, 10), leg(0, 2, 26), leg(1, 2, 15), crane(0)])?;
    records(rt, &[crane(0)])?;
    records(rt, &[leg(0, 1, 1_000_000), crane(1), call(0), call(1)])?;
    records(rt, &[leg(0, 1, 1), crane(1), call(0), call(1)])?;
    records(rt, &[leg(0, 1, 1_000_001), crane(1), call(0), call(1)])?;
    records(rt, &[leg(0, 1, 0), crane(1), call(0), call(1)])?;
    records(
        rt,
        &[leg(0, 1, 10), leg(0, 2, u32::MAX), leg(1, 2, 15), crane(0)],
    )?;
    records(rt, &[leg(0, 1, 0), leg(0, 2, 5), leg(1, 2, 5), crane(0)])?;
    records(rt, &[leg(0, 1, 0), leg(0, 2, 5), leg(1, 2, 6), crane(0)])?;
    // No record, part of a record, and a record and a byte; 1 before 2.
    line::begin(rt, 6)?;
    read(rt, &[])?;
    short(rt, &[crane(0)], 11, 0, 2)?;
    short(rt, &[crane(0)], 13, 0, 2)?;
    short(rt, &[crane(0)], 13, 0, 9)
}

// Another kind, and each byte that must be 0, in a crane, a call and a leg.
pub(crate) fn kinds(rt: &impl Print) -> io::Result<()> {
    line::begin(rt, 7)?;
    records(rt, &[NONE])?;
    records(rt, &[crane(0), ODD])?;
    short(rt, &[crane(0), call(0), call(0)], 36, 1, 1)?;
    short(rt, &[crane(0), call(0), call(0)], 36, 4, 1)?;
    short(rt, &[crane(0), call(0), call(0)], 36, 5, 1)?;
    short(rt, &[crane(0), call(0), call(0)], 36, 18, 1)?;
    short(rt, &[crane(0), call(0), call(0)], 36, 19, 1)?;
    short(rt, &[crane(0), call(0), call(0)], 36, 20, 1)?;
    short(rt, &[crane(0), call(0), call(0)], 36, 33, 1)?;
    short(rt, &[crane(0), call(0), call(0)], 36, 34, 1)?;
    short(rt, &[crane(0), call(0), call(0)], 36, 35, 255)?;
    short(rt, &[leg(0, 1, 10), crane(0), call(0), call(0)], 48, 1, 1)?;
    short(rt, &[leg(0, 1, 10), crane(0), call(0), call(0)], 48, 6, 1)?;
    short(rt, &[leg(0, 1, 10), crane(0), call(0), call(0)], 48, 7, 1)
}

// Out of order: a first leg that is not (0,1), a leg again, one the other way, a second place above 63, a leg after a crane, a crane
// after a call.
pub(crate) fn order(rt: &impl Print) -> io::Result<()> {
    line::begin(rt, 8)?;
    records(rt, &[leg(1, 2, 15), crane(0)])?;
    records(rt, &[leg(0, 1, 10), leg(0, 1, 10), crane(0)])?;
    records(rt, &[leg(1, 0, 10), crane(0)])?;
    records(rt, &[leg(0, 64, 10), crane(0)])?;
    records(rt, &[crane(0), leg(0, 1, 10)])?;
    records(rt, &[crane(0), call(0), crane(0)])?;
    // Legs missing, at a crane, at a call and at the end; 3 before 5, before 6, and before 6 at the end.
    line::begin(rt, 9)?;
    records(rt, &[leg(0, 1, 10), leg(0, 2, 20), crane(0)])?;
    records(rt, &[leg(0, 1, 10), leg(0, 2, 20), crane(256)])?;
    records(rt, &[leg(0, 1, 10), leg(0, 2, 20), call(0)])?;
    records(rt, &[leg(0, 1, 10), leg(0, 2, 20)])
}

// 2 before 3, 3 before 4, and each before a fault of the next record. No record has reasons for both 4 and 5, or for both 6 and 7.
pub(crate) fn stops(rt: &impl Print) -> io::Result<()> {
    line::begin(rt, 10)?;
    short(rt, &[leg(1, 2, 15), crane(0)], 24, 6, 1)?;
    records(rt, &[leg(1, 2, 1_000_001), crane(0)])?;
    records(rt, &[leg(1, 2, 15), ODD])?;
    records(rt, &[leg(0, 1, 1_000_001), leg(0, 1, 10), crane(0)])?;
    records(rt, &[leg(0, 1, 1_000_001), ODD])?;
    // A place not below the number of places; 5 before 6, and before a fault of the next record.
    line::begin(rt, 11)?;
    records(rt, &[leg(0, 1, 10), crane(2), call(0), call(0)])?;
    records(rt, &[leg(0, 1, 10), crane(1), call(1), call(2)])?;
    records(rt, &[crane(1)])?;
    records(rt, &[call(1), crane(0)])?;
    records(rt, &[crane(256), ODD])
}

// A call before any crane, and no crane; 6 before a fault of the next record, and at the end before 8. A record's test before the end's: 6 of
// a call, and 3 of a leg, where there is no crane.
pub(crate) fn cranes(rt: &impl Print) -> io::Result<()> {
    line::begin(rt, 12)?;
    records(rt, &[call(0), crane(0)])?;
    records(rt, &[call(0), ODD])?;
    records(rt, &[leg(0, 1, 10)])?;
    records(rt, &[leg(0, 1, 10), leg(0, 2, 26), leg(1, 2, 15)])?;
    records(rt, &[leg(0, 1, 10), call(0)])?;
    records(rt, &[leg(0, 1, 10), leg(1, 2, 15)])?;
    Long {
        legs: 3,
        metres: 1,
        cranes: 0,
        calls: 0,
        last: call(2),
    }
    .read(rt, 48)?;
    // Sixteen cranes, and seventeen; 5 before 6, 6 of a record before 8.
    line::begin(rt, 13)?;
    Long {
        legs: 3,
        metres: 1,
        cranes: 15,
        calls: 0,
        last: crane(2),
    }
    .read(rt, 228)?;
    Long {
        legs: 3,
        metres: 1,
        cranes: 16,
        calls: 0,
        last: crane(2),
    }
    .read(rt, 240)?;
    Long {
        legs: 3,
        metres: 1,
        cranes: 16,
        calls: 0,
        last: crane(3),
    }
    .read(rt, 240)?;
    Long {
        legs: 3,
        metres: 3,
        cranes: 16,
        calls: 0,
        last: crane(2),
    }
    .read(rt, 240)
}

// 256 calls, and 257; 5 before 7, 7 before 8. Then the longest file; a byte more, and a record more; a leg to a place above 63; the triangle
// rule.
pub(crate) fn calls(rt: &impl Print) -> io::Result<()> {
    line::begin(rt, 14)?;
    Long {
        legs: 3,
        metres: 1,
        cranes: 1,
        calls: 255,
        last: call(2),
    }
    .read(rt, 3_120)?;
    Long {
        legs: 3,
        metres: 1,
        cranes: 1,
        calls: 256,
        last: call(2),
    }
    .read(rt, 3_132)?;
    Long {
        legs: 3,
        metres: 1,
        cranes: 1,
        calls: 256,
        last: call(3),
    }
    .read(rt, 3_132)?;
    Long {
        legs: 3,
        metres: 3,
        cranes: 1,
        calls: 256,
        last: call(2),
    }
    .read(rt, 3_132)?;
    line::begin(rt, 15)?;
    Long {
        legs: 2_016,
        metres: 1,
        cranes: 16,
        calls: 255,
        last: call(63),
    }
    .read(rt, 27_456)?;
    Long {
        legs: 2_016,
        metres: 1,
        cranes: 16,
        calls: 256,
        last: call(63),
    }
    .read(rt, 27_457)?;
    Long {
        legs: 2_016,
        metres: 1,
        cranes: 16,
        calls: 256,
        last: call(63),
    }
    .read(rt, 27_468)?;
    Long {
        legs: 2_017,
        metres: 1,
        cranes: 16,
        calls: 254,
        last: call(63),
    }
    .read(rt, 27_456)?;
    Long {
        legs: 2_016,
        metres: 3,
        cranes: 16,
        calls: 255,
        last: call(63),
    }
    .read(rt, 27_456)
}
