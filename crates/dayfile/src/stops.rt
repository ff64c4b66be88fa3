// Stops in a row, the starts or the calls of a day: their records read and written.
ghost use Rattle.std.specs.Prelude.{map, ◌≡◌, ◌+◌, ◌*◌, ◌≤◌, length};
ghost use Rattle.base.specs.Lists.{up_to, splice};
ghost use Rattle.dayfile.specs.Codec.{kind_number, records, encode_all};
ghost use Rattle.dayfile.specs.Day.{stop};
ghost use Rattle.dayfile.specs.File.{stop_from};

use crate::codec::{Kind, Record};
use crate::{Day, codec};

// The first places of as many records as the list is long, from the record of index `from`.
pub(crate) fn read(bytes: &[u8], from: usize, stops: &mut [u16])
    requires { 12 * (from + length stops.old) ≤ length bytes.now }
    ensures { stops.new ≡ up_to (length stops.old) (stop_from (records bytes.now) from) }
{
    for (i, stop) in stops.iter_mut().enumerate() {
        *stop = codec::read(bytes, Day::RECORD_LENGTH * (from + i)).first;
    }
}

// The records of stops of one kind, into the buffer from the record of index `from`.
pub(crate) fn put(kind: Kind, stops: &[u16], out: &mut [u8], from: usize)
    requires { 12 * (from + length stops.now) ≤ length out.old }
    ensures { out.new ≡ splice (12 * from) (encode_all (map (stop (kind_number kind)) stops.now)) out.old }
{
    for (i, place) in stops.iter().enumerate() {
        let r = Record {
            kind: u8::from(kind),
            pad: 0,
            first: *place,
            second: 0,
            gap: 0,
            metres: 0,
        };
        codec::put(r, out, Day::RECORD_LENGTH * (from + i));
    }
}
