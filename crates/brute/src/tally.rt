// How many cases of a group were tried, and how many of them agree; the same by other cranes than the quoted ones.
use std::fmt;

// What became of a day: whether every figure agreed, whether two cranes had the same sum at some call, and how many calls had another crane
// than the quoted one.
#[derive(Clone, Copy)]
pub struct Outcome {
    pub agree: bool,
    pub tied: bool,
    pub others: u64,
}

impl Outcome {
    // Of a day that the library refuses.
    pub(crate) const REFUSED: Outcome = Outcome {
        agree: false,
        tied: false,
        others: 0,
    };
}

#[derive(Clone, Copy)]
pub struct Tally {
    tried: u64,
    agree: u64,
}

impl Tally {
    pub(crate) const NONE: Tally = Tally { tried: 0, agree: 0 };

    // One case more.
    pub(crate) fn add(self, agrees: bool) -> Self {
        Self {
            tried: self.tried.wrapping_add(1),
            agree: self.agree.wrapping_add(u64::from(agrees)),
        }
    }
}

impl fmt::Display for Tally {
    fn fmt<W: fmt::Write>(&self, f: &mut fmt::Formatter<W>) -> fmt::Result {
        let Tally { tried, agree } = self;
        write!(f, "tried {tried} agree {agree}")
    }
}

// The same of days by other cranes, and how many of their calls had another crane than the quoted one.
#[derive(Clone, Copy)]
pub struct Others {
    days: Tally,
    calls: u64,
}

impl Others {
    pub(crate) const NONE: Others = Others {
        days: Tally::NONE,
        calls: 0,
    };

    // One day more.
    pub(crate) fn add(self, day: Outcome) -> Self {
        Self {
            days: self.days.add(day.agree),
            calls: self.calls.wrapping_add(day.others),
        }
    }
}

impl fmt::Display for Others {
    fn fmt<W: fmt::Write>(&self, f: &mut fmt::Formatter<W>) -> fmt::Result {
        let Others { days, calls } = self;
        write!(f, "{days} other cranes {calls}")
    }
}

// A group of days, by the quoted cranes and by others.
#[derive(Clone, Copy)]
pub struct Group {
    pub quoted: Tally,
    pub others: Others,
}

impl Group {
    pub(crate) const NONE: Group = Group {
        quoted: Tally::NONE,
        others: Others::NONE,
    };

    // One day more.
    pub(crate) fn add(self, quoted: Outcome, others: Outcome) -> Self {
        Self {
            quoted: self.quoted.add(quoted.agree),
            others: self.others.add(others),
        }
    }
}
