// The day and its file: limits, the tests of a day in memory, reading and writing. Stands on `base` and `road`.
#![tactic(auto)]

mod codec;
mod legs;
mod scan;
mod stops;
mod write;

ghost use Rattle.std.specs.Prelude.{◌≡◌};
ghost use Rattle.base.specs.Numbers.{number_of};
ghost use Rattle.dayfile.specs.Day.{counts_refusal, stops_refusal, placed_refusal, day_refusal};
ghost use Rattle.dayfile.specs.File.{answer, read_file, written, write_file};

use base::Refusal;
use road::Road;

// A day in memory, beside its road table. The entries of `starts` past the number of cranes and of `requests` past the
// number of calls are ignored where a day is given, and 0 in a day that is returned.
// The counts stand beside arrays of a fixed size, since memory is fixed, and `day_of` and `day_refusal` say what holds past them.
#[derive(Clone, Copy)]
pub struct Day {
    // How many places the road table has.
    pub places: usize,
    pub cranes: usize,
    pub calls: usize,
    // The place at which each crane starts.
    pub starts: [u16; Day::CRANES],
    // The place of each call, in order.
    pub requests: [u16; Day::CALLS],
}

// What a file holds: the day and its table. The legs of the day's places are the front of the array, 0 past them:
// `&table[..Road::legs(day.places)]` is the run. An array of a fixed size, since memory is fixed, and `table_of` says what is past the legs.
#[derive(Clone, Copy)]
pub struct Reading {
    pub day: Day,
    pub table: [u32; Road::LEGS],
}

// Why a file is refused: the refusal, and the index of the record that goes with it.
#[derive(Clone, Copy, Debug, PartialEq, Eq)]
pub struct FileRefusal {
    pub refusal: Refusal,
    pub index: usize,
}

// A refusal of the whole file goes with the index 0.
impl From<Refusal> for FileRefusal {
    ghost from_gives = { λ r f. f ≡ record { refusal = r; index = 0 } };

    fn from(refusal: Refusal) -> FileRefusal {
        FileRefusal { refusal, index: 0 }
    }
}

impl Day {
    // The most cranes of a day.
    pub const CRANES: usize = 16;

    // The most calls of a day.
    pub const CALLS: usize = 256;

    // The bytes of a record.
    pub const RECORD_LENGTH: usize = 12;

    // The bytes of the longest file.
    pub const FILE_LENGTH: usize = 27_456;

    // The day and the table of a file of any bytes.
    pub fn read(bytes: &[u8]) -> Result<Reading, FileRefusal>
        ensures { answer result ≡ read_file bytes.now }
    {
        scan::test_length(bytes.len())?;
        let state = scan::scan(bytes)?;
        let table = legs::table(bytes, state.second);
        let legs = Road::legs(state.second);
        Road::test_triangles(state.second, &table[..legs])?;
        Ok(Reading {
            day: scan::day(bytes, state),
            table,
        })
    }

    // 3, then 6, then 7: whether the numbers of places, cranes and calls are within their limits, and so many legs are those of the
    // places.
    #[tactic(auto, using(base::proofs::Numbers::handing), unfolding(base::specs::Tests::within, crate::specs::Day::counts_refusal))]
    pub fn test_counts(
        places: usize,
        legs: usize,
        cranes: usize,
        calls: usize,
    ) -> Result<(), Refusal>
        ensures { number_of result ≡ counts_refusal places legs cranes calls }
    {
        Road::test_run(places, legs)?;
        if !matches!(cranes, 1..=Day::CRANES) {
            return Err(Refusal::Cranes);
        }
        if Day::CALLS < calls {
            return Err(Refusal::Calls);
        }
        Ok(())
    }

    // 5 unless every stop's place is below the number of places.
    pub fn test_stops(places: usize, stops: &[u16]) -> Result<(), Refusal>
        ensures { number_of result ≡ stops_refusal places stops.now }
    {
        for place in stops {
            if places <= usize::from(*place) {
                return Err(Refusal::Place);
            }
        }
        Ok(())
    }

    // The tests that a day and a book have in common: 3, 6, 7, 4, then 5 for the starts and the calls.
    pub fn test_placed(self, table: &[u32]) -> Result<(), Refusal>
        ensures { number_of result ≡ placed_refusal self table.now }
    {
        let places = self.places;
        let cranes = self.cranes;
        let calls = self.calls;
        let starts = self.starts;
        let requests = self.requests;
        Day::test_counts(places, table.len(), cranes, calls)?;
        Road::test_legs(places, table)?;
        Day::test_stops(places, &starts[..cranes])?;
        Day::test_stops(places, &requests[..calls])
    }

    // The whole test of a day in memory: 3, 6, 7, 4, 5, 8.
    pub fn test(self, table: &[u32]) -> Result<(), Refusal>
        ensures { number_of result ≡ day_refusal self table.now }
    {
        self.test_placed(table)?;
        Road::test_triangles(self.places, table)
    }

    // The day's file, into the front of a lent buffer, and the number of its bytes; the same test, then 11 where the buffer is too short.
    pub fn write(self, table: &[u32], out: &mut [u8]) -> Result<usize, Refusal>
        ensures { written result out.new ≡ write_file self table.now out.old }
    {
        self.test(table)?;
        let records = Road::legs(self.places) + self.cranes + self.calls;
        let length = Day::RECORD_LENGTH * records;
        if out.len() < length {
            return Err(Refusal::Buffer);
        }
        write::put(self, table, out);
        Ok(length)
    }
}
