// What the library tells, as a value or a refusal.
use base::Refusal;
use dayfile::Day;
use dispatch::Dispatch;
use rough::RoughFloors;
use std::fmt;

// A floor, where it is not refused. It prints as the number of the refusal, 0 where there is none, and the floor, 0 where it is refused.
#[derive(Clone, Copy)]
pub struct Floor(pub Result<u64, Refusal>);

impl Floor {
    // Of the plans of a day over one table.
    pub(crate) fn of_plans(day: Day, table: &[u32]) -> Self {
        Self(Dispatch::plan_floor(day, table))
    }

    // Of a day served.
    pub(crate) fn served(day: Day, table: &[u32]) -> Self {
        Self(Dispatch::serve_day(day, table).map(|served| served.floor))
    }
}

impl fmt::Display for Floor {
    fn fmt<W: fmt::Write>(&self, f: &mut fmt::Formatter<W>) -> fmt::Result {
        write!(f, "{} {}", base::number(self.0), self.0.unwrap_or(0))
    }
}

// The floors of a day between two tables, where they are not refused. They print as the number of the refusal and the floors, like one floor.
#[derive(Clone, Copy)]
pub struct Floors(pub Result<RoughFloors, Refusal>);

impl Floors {
    pub(crate) fn between<'a>(day: Day, lower: &'a [u32], upper: &'a [u32]) -> Self {
        Self(rough::floors(day, lower, upper))
    }
}

impl fmt::Display for Floors {
    fn fmt<W: fmt::Write>(&self, f: &mut fmt::Formatter<W>) -> fmt::Result {
        let (lower, upper) = self.0.map_or((0, 0), |floors| (floors.lower, floors.upper));
        write!(f, "{} {lower} {upper}", base::number(self.0))
    }
}
