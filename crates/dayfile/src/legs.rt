// The legs of a file: the table that they make, and their records written.
ghost use Rattle.std.specs.Prelude.{◌≡◌, ◌+◌, ◌*◌, ◌<◌, ◌≤◌, length};
ghost use Rattle.base.specs.Lists.{up_to, splice};
ghost use Rattle.road.specs.Table.{most_places, leg_count, metres_of};
ghost use Rattle.dayfile.specs.Codec.{records, encode_all};
ghost use Rattle.dayfile.specs.Legs.{leg, table_of, leg_records};

use crate::codec::{Kind, Record};
use crate::{Day, codec};
use road::Road;

// The table of so many places, 0 past its legs: each leg's record has its index.
pub(crate) fn table(bytes: &[u8], places: usize) -> [u32; Road::LEGS]
    requires { (places ≤ most_places) × (12 * leg_count places ≤ length bytes.now) }
    ensures { result ≡ table_of places (records bytes.now) }
{
    let legs = Road::legs(places);
    let mut table = [0; Road::LEGS];
    for i in 0..legs {
        table[i] = codec::read(bytes, Day::RECORD_LENGTH * i).metres;
    }
    table
}

// The records of the legs to v from the earlier places, into the buffer from their own place in the file.
fn put_to(table: &[u32], v: usize, out: &mut [u8])
    requires { (v < most_places) × (12 * (leg_count v + v) ≤ length out.old) }
    ensures { out.new ≡ splice (12 * leg_count v) (encode_all (up_to v (λ u. leg u v (metres_of table.now u v)))) out.old }
{
    let from = Road::legs(v);
    for u in 0..v {
        let r = Record {
            kind: u8::from(Kind::Leg),
            pad: 0,
            first: u as u16,
            second: v as u16,
            gap: 0,
            metres: Road::metres(table, u, v),
        };
        codec::put(r, out, Day::RECORD_LENGTH * (from + u));
    }
}

// The records of all legs, into the front of the buffer.
pub(crate) fn put(table: &[u32], places: usize, out: &mut [u8])
    requires { (places ≤ most_places) × (12 * leg_count places ≤ length out.old) }
    ensures { out.new ≡ splice 0 (encode_all (leg_records (metres_of table.now) places)) out.old }
{
    for v in 0..places {
        put_to(table, v, out);
    }
}
