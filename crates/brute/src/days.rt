// Every small day up to a size, and days drawn at random, each by the library and by the brute search, with the quoted cranes and with others.
ghost use Rattle.std.specs.Prelude.{◌<◌};

use crate::roads::Square;
use crate::sheets::Posted;
use crate::small::{Counts, Source};
use crate::tally::{Group, Others, Tally};
use crate::{search, small};
use dayfile::Day;
use dispatch::Dispatch;
use std::fmt;

// Whether a day over a run is refused by a number, served and as a sheet.
fn is_refused(day: Day, run: &[u32], number: u8) -> bool {
    base::number(Dispatch::serve_day(day, run)) == number
        && Posted::new(day, run).is_refused(number)
}

// Whether a day of three places with legs that break the triangle rule is refused by 8; and by 3, which comes before, with one leg fewer and with
// one number more.
fn is_refused_rightly(day: Day, square: &Square) -> bool {
    let legs = square.legs();
    is_refused(day, legs.front(3), 8)
        && is_refused(day, legs.front(2), 3)
        && is_refused(day, legs.front(4), 3)
}

// The small day of a number too. Its legs need not keep the triangle rule: then it has three places, and must be refused.
fn add(before: Group, day: Day, square: &Square, number: usize) -> Group {
    if square.is_metric(day.places) {
        return before.add(
            search::quoted(day, square),
            search::others(day, square, number),
        );
    }
    Group {
        quoted: before.quoted.add(is_refused_rightly(day, square)),
        ..before
    }
}

// All days of these counts with legs of metres below a bound: so many squares, lists of starts, and days.
#[derive(Clone, Copy)]
struct Every {
    counts: Counts,
    bound: u64,
    squares: usize,
    starts: usize,
    days: usize,
    ghost some: { (0 < bound) × ((0 < squares) × (0 < starts)) },
}

impl Every {
    // The day of a number too.
    fn add(self, before: Group, number: usize) -> Group {
        let square = small::five(Source::digits(number % self.squares), self.bound);
        let first = Source::digits(number / self.squares % self.starts);
        let asked = Source::digits(number / self.squares / self.starts);
        let day = self.counts.day(first, asked, self.counts.places as u64);
        add(before, day, &square, number)
    }

    // All of them too.
    fn all(self, before: Group) -> Group {
        (0..self.days).fold(before, |group, number| self.add(group, number))
    }
}

// Every day of six sizes.
const SIZES: [Every; 6] = [
    Every {
        counts: Counts {
            places: 1,
            cranes: 1,
            calls: 6,
        },
        bound: 1,
        squares: 1,
        starts: 1,
        days: 1,
    },
    Every {
        counts: Counts {
            places: 2,
            cranes: 2,
            calls: 6,
        },
        bound: 3,
        squares: 3,
        starts: 4,
        days: 768,
    },
    Every {
        counts: Counts {
            places: 2,
            cranes: 3,
            calls: 4,
        },
        bound: 4,
        squares: 4,
        starts: 8,
        days: 512,
    },
    Every {
        counts: Counts {
            places: 3,
            cranes: 1,
            calls: 3,
        },
        bound: 3,
        squares: 27,
        starts: 3,
        days: 2_187,
    },
    Every {
        counts: Counts {
            places: 3,
            cranes: 2,
            calls: 3,
        },
        bound: 4,
        squares: 64,
        starts: 9,
        days: 15_552,
    },
    Every {
        counts: Counts {
            places: 3,
            cranes: 3,
            calls: 2,
        },
        bound: 3,
        squares: 27,
        starts: 27,
        days: 6_561,
    },
];

// Every day of these sizes.
pub(crate) fn all() -> Group {
    SIZES
        .iter()
        .fold(Group::NONE, |group, size| size.all(group))
}

// Random days by the quoted cranes, those without a call at which two cranes had the same sum and those with one; and by others.
#[derive(Clone, Copy)]
pub struct Drawn {
    plain: Tally,
    tied: Tally,
    others: Others,
}

impl fmt::Display for Drawn {
    fn fmt<W: fmt::Write>(&self, f: &mut fmt::Formatter<W>) -> fmt::Result {
        let Drawn {
            plain,
            tied,
            others,
        } = self;
        writeln!(f, "random days without equal sums: {plain}")?;
        writeln!(f, "random days with equal sums: {tied}")?;
        writeln!(f, "random days by other cranes: {others}")
    }
}

// So many random days of a size, with legs of metres below a bound before the shortest ways are taken.
#[derive(Clone, Copy)]
struct Sample {
    places: usize,
    cranes: usize,
    bound: u64,
    days: usize,
    ghost some: { (0 < places) × (0 < bound) },
}

impl Sample {
    // The random day of a number too.
    fn add(self, before: Drawn, number: usize) -> Drawn {
        let counts = Counts {
            places: self.places,
            cranes: self.cranes,
            calls: 6,
        };
        let square = counts.drawn_square(number, self.bound);
        let day = counts.drawn_day(number);
        let quoted = search::quoted(day, &square);
        let others = before.others.add(search::others(day, &square, number));
        if quoted.tied {
            return Drawn {
                tied: before.tied.add(quoted.agree),
                others,
                ..before
            };
        }
        Drawn {
            plain: before.plain.add(quoted.agree),
            others,
            ..before
        }
    }

    // All of them too.
    fn all(self, before: Drawn) -> Drawn {
        (0..self.days).fold(before, |drawn, number| self.add(drawn, number))
    }
}

// Random days of seven sizes.
const RANDOM: [Sample; 7] = [
    Sample {
        places: 5,
        cranes: 4,
        bound: 6,
        days: 120,
    },
    Sample {
        places: 5,
        cranes: 4,
        bound: 1_000,
        days: 120,
    },
    Sample {
        places: 5,
        cranes: 4,
        bound: 100_000,
        days: 120,
    },
    Sample {
        places: 5,
        cranes: 2,
        bound: 100,
        days: 300,
    },
    Sample {
        places: 5,
        cranes: 1,
        bound: 1_000,
        days: 300,
    },
    Sample {
        places: 4,
        cranes: 3,
        bound: 5,
        days: 300,
    },
    Sample {
        places: 3,
        cranes: 4,
        bound: 4,
        days: 300,
    },
];

// All of them.
pub(crate) fn random() -> Drawn {
    let none = Drawn {
        plain: Tally::NONE,
        tied: Tally::NONE,
        others: Others::NONE,
    };
    RANDOM.iter().fold(none, |drawn, size| size.all(drawn))
}
