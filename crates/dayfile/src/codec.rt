// A record's six fields, and its 12 bytes.
ghost use Rattle.std.specs.Prelude.{◌≡◌, ◌+◌, ◌≤◌, length, drop};
ghost use Rattle.base.specs.Lists.{splice};
ghost use Rattle.dayfile.specs.Codec.{kind_number, HasKind, decode, encode};

use crate::Day;
use base::Refusal;

// The kinds of records.
#[derive(Clone, Copy, PartialEq, Eq)]
pub enum Kind {
    Leg,
    Crane,
    Call,
}

// The byte of a kind.
impl From<Kind> for u8 {
    ghost from_gives = { λ kind byte. byte ≡ kind_number kind };

    fn from(kind: Kind) -> u8 {
        match kind {
            Kind::Leg => 1,
            Kind::Crane => 2,
            Kind::Call => 3,
        }
    }
}

// The kind of a byte; 2 where no kind has it.
impl TryFrom<u8> for Kind {
    type Error = Refusal;

    ghost try_from_gives = { HasKind };

    #[tactic(auto, unfolding(base::specs::Tests::within))]
    fn try_from(byte: u8) -> Result<Self, Refusal> {
        match byte {
            1 => Ok(Kind::Leg),
            2 => Ok(Kind::Crane),
            3 => Ok(Kind::Call),
            _ => Err(Refusal::Record),
        }
    }
}

// The fields in their order; `pad` is byte 1 and `gap` bytes 6 and 7.
#[derive(Clone, Copy)]
pub struct Record {
    pub kind: u8,
    pub pad: u8,
    pub first: u16,
    pub second: u16,
    pub gap: u16,
    pub metres: u32,
}

// The record in the 12 bytes from `at`.
pub(crate) fn read(bytes: &[u8], at: usize) -> Record
    requires { at + 12 ≤ length bytes.now }
    ensures { result ≡ decode (drop at bytes.now) }
{
    Record {
        kind: bytes[at],
        pad: bytes[at + 1],
        first: u16::from_le_bytes([bytes[at + 2], bytes[at + 3]]),
        second: u16::from_le_bytes([bytes[at + 4], bytes[at + 5]]),
        gap: u16::from_le_bytes([bytes[at + 6], bytes[at + 7]]),
        metres: u32::from_le_bytes([bytes[at + 8], bytes[at + 9], bytes[at + 10], bytes[at + 11]]),
    }
}

// The 12 bytes of a record.
fn bytes_of(r: Record) -> [u8; Day::RECORD_LENGTH]
    ensures { result ≡ encode r }
{
    let [f0, f1] = r.first.to_le_bytes();
    let [s0, s1] = r.second.to_le_bytes();
    let [g0, g1] = r.gap.to_le_bytes();
    let [m0, m1, m2, m3] = r.metres.to_le_bytes();
    [r.kind, r.pad, f0, f1, s0, s1, g0, g1, m0, m1, m2, m3]
}

// The record's 12 bytes, into the buffer from `at`.
pub(crate) fn put(r: Record, out: &mut [u8], at: usize)
    requires { at + 12 ≤ length out.old }
    ensures { out.new ≡ splice at (encode r) out.old }
{
    out[at..at + Day::RECORD_LENGTH].copy_from_slice(&bytes_of(r));
}
