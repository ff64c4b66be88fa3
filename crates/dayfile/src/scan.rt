// A file's records, tested one after another in one pass; and what is read of a refused file and of an accepted one.
ghost use Rattle.std.specs.Prelude.{◌≡◌, length, IfOk};
ghost use Rattle.base.specs.Numbers.{number_of};
ghost use Rattle.dayfile.specs.Codec.{records, kind_number};
ghost use Rattle.dayfile.specs.Scan.{start, Limited, after, length_refusal, bare_refusal, form_refusal, leg_refusal, stop_refusal, crane_refusal, call_refusal, record_refusal, end_refusal, scanned};
ghost use Rattle.dayfile.specs.Scan as spec;
ghost use Rattle.dayfile.specs.File.{day_of, Room};

use crate::codec::{Kind, Record};
use crate::{Day, FileRefusal, codec, stops};
use base::Refusal;
use road::Road;

// What has been read: the first and second place of the next leg, were one to come, and the numbers of cranes and calls.
#[derive(Clone, Copy)]
pub struct State {
    pub first: usize,
    pub second: usize,
    pub cranes: usize,
    pub calls: usize,
}

// 1 unless a file may have this length.
#[tactic(auto, unfolding(crate::specs::Scan::length_refusal))]
pub(crate) fn test_length(length: usize) -> Result<(), Refusal>
    ensures { number_of result ≡ length_refusal length }
{
    if length % Day::RECORD_LENGTH != 0 {
        return Err(Refusal::Length);
    }
    if Day::FILE_LENGTH < length {
        return Err(Refusal::Length);
    }
    Ok(())
}

// 2 unless the bytes are 0 that only a leg uses.
#[tactic(auto, unfolding(crate::specs::Scan::bare_refusal))]
fn test_bare(r: Record) -> Result<(), Refusal>
    ensures { number_of result ≡ bare_refusal r }
{
    if r.second != 0 {
        return Err(Refusal::Record);
    }
    if r.metres != 0 {
        return Err(Refusal::Record);
    }
    Ok(())
}

// The kind of a record; 2 unless it is one of the three and the bytes that must be 0 are.
#[tactic(auto, using(base::proofs::Numbers::handing), unfolding(crate::specs::Scan::form_refusal, base::specs::Tests::within))]
fn test_form(r: Record) -> Result<Kind, Refusal>
    ensures number { number_of result ≡ form_refusal r }
    ensures kind { IfOk result (λ kind. kind_number kind ≡ r.kind) }
{
    let kind = Kind::try_from(r.kind)?;
    if r.pad != 0 {
        return Err(Refusal::Record);
    }
    if r.gap != 0 {
        return Err(Refusal::Record);
    }
    if kind != Kind::Leg {
        test_bare(r)?;
    }
    Ok(kind)
}

impl State {
    // Before the first record: the next leg is (0,1).
    const START: State = State {
        first: 0,
        second: 1,
        cranes: 0,
        calls: 0,
    };

    // 3 unless the leg is the next in order; then 4.
    #[tactic(auto, unfolding(crate::specs::Scan::leg_refusal))]
    fn test_leg(self, r: Record) -> Result<(), Refusal>
        ensures { number_of result ≡ leg_refusal self r }
    {
        if self.cranes != 0 {
            return Err(Refusal::Order);
        }
        if usize::from(r.first) != self.first {
            return Err(Refusal::Order);
        }
        if usize::from(r.second) != self.second {
            return Err(Refusal::Order);
        }
        if Road::PLACES <= usize::from(r.second) {
            return Err(Refusal::Order);
        }
        Road::test_metres(r.metres)
    }

    // Of a crane or a call: 3 where legs are missing; then 5; then 6 unless the cranes before it keep their rule.
    #[tactic(auto, unfolding(crate::specs::Scan::stop_refusal))]
    fn test_stop(self, r: Record, rule: bool) -> Result<(), Refusal>
        ensures { number_of result ≡ stop_refusal self r rule }
    {
        if self.first != 0 {
            return Err(Refusal::Order);
        }
        if self.second <= usize::from(r.first) {
            return Err(Refusal::Place);
        }
        if !rule {
            return Err(Refusal::Cranes);
        }
        Ok(())
    }

    // 3 for a crane after a call; then as a stop, with 6 for a crane too many.
    #[tactic(auto, using(base::proofs::Numbers::handing), unfolding(crate::specs::Scan::crane_refusal))]
    fn test_crane(self, r: Record) -> Result<(), Refusal>
        ensures { number_of result ≡ crane_refusal self r }
    {
        if self.calls != 0 {
            return Err(Refusal::Order);
        }
        self.test_stop(r, self.cranes < Day::CRANES)
    }

    // As a stop, with 6 where no crane came before; then 7 for a call too many.
    #[tactic(auto, using(base::proofs::Numbers::handing), unfolding(crate::specs::Scan::call_refusal))]
    fn test_call(self, r: Record) -> Result<(), Refusal>
        ensures { number_of result ≡ call_refusal self r }
    {
        self.test_stop(r, 0 < self.cranes)?;
        if Day::CALLS <= self.calls {
            return Err(Refusal::Calls);
        }
        Ok(())
    }

    // The kind of a record after those before it: 2, then by the kind.
    #[tactic(auto, using(base::proofs::Numbers::handing), unfolding(crate::specs::Scan::record_refusal))]
    fn test_record(self, r: Record) -> Result<Kind, Refusal>
        ensures number { number_of result ≡ record_refusal self r }
        ensures kind { IfOk result (λ kind. kind_number kind ≡ r.kind) }
    {
        let kind = test_form(r)?;
        match kind {
            Kind::Leg => self.test_leg(r)?,
            Kind::Crane => self.test_crane(r)?,
            Kind::Call => self.test_call(r)?,
        }
        Ok(kind)
    }

    // 3 where legs are missing at the end, then 6 without a crane.
    #[tactic(auto, unfolding(crate::specs::Scan::end_refusal))]
    fn test_end(self) -> Result<(), Refusal>
        ensures { number_of result ≡ end_refusal self }
    {
        if self.first != 0 {
            return Err(Refusal::Order);
        }
        if self.cranes == 0 {
            return Err(Refusal::Cranes);
        }
        Ok(())
    }

    // What has been read once a record of a kind was accepted.
    #[tactic(auto, unfolding(crate::specs::Scan::after, crate::specs::Scan::after_leg))]
    fn next(self, kind: Kind) -> State
        requires { Limited self }
        ensures { (r : Record) → r.kind ≡ kind_number kind → result ≡ after self r }
    {
        match kind {
            Kind::Leg if self.first + 1 == self.second => State {
                first: 0,
                second: self.second + 1,
                ..self
            },
            Kind::Leg => State {
                first: self.first + 1,
                ..self
            },
            Kind::Crane => State {
                cranes: self.cranes + 1,
                ..self
            },
            Kind::Call => State {
                calls: self.calls + 1,
                ..self
            },
        }
    }
}

// The records of a file, first to last, then the end.
pub(crate) fn scan(bytes: &[u8]) -> Result<State, FileRefusal>
    requires { length_refusal (length bytes.now) ≡ 0 }
    ensures { scanned result ≡ spec.scan 0 start (records bytes.now) }
{
    let mut state = State::START;
    let count = bytes.len() / Day::RECORD_LENGTH;
    for index in 0..count {
        let r = codec::read(bytes, Day::RECORD_LENGTH * index);
        match state.test_record(r) {
            Ok(kind) => state = state.next(kind),
            Err(refusal) => return Err(FileRefusal { refusal, index }),
        }
    }
    match state.test_end() {
        Ok(()) => Ok(state),
        Err(refusal) => Err(FileRefusal {
            refusal,
            index: count,
        }),
    }
}

// The day of a file's records.
pub(crate) fn day(bytes: &[u8], s: State) -> Day
    requires { Room s.second s.cranes s.calls bytes.now }
    ensures { result ≡ day_of (records bytes.now) s }
{
    let legs = Road::legs(s.second);
    let cranes = s.cranes;
    let calls = s.calls;
    let mut starts = [0; Day::CRANES];
    stops::read(bytes, legs, &mut starts[..cranes]);
    let mut requests = [0; Day::CALLS];
    stops::read(bytes, legs + cranes, &mut requests[..calls]);
    Day {
        places: s.second,
        cranes,
        calls,
        starts,
        requests,
    }
}
