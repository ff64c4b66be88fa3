// Days and tables drawn by a fixed rule.
use dayfile::Day;
use road::Road;

// The tables of a random day: the one in between keeps the triangle rule.
#[derive(Clone, Copy)]
pub enum Table {
    Between,
    Lower,
    Upper,
}

// The rule's next number.
fn next(seed: u64) -> u64 {
    let number = seed % 2_147_483_647 * 48_271;
    number ^ (number >> 16)
}

// The number at an index of a part of the day of a number.
pub(crate) fn number(day: u64, part: u64, index: usize) -> u64 {
    let first = next(next(day.wrapping_add(part << 20)));
    next(next(first.wrapping_add(index as u64)))
}

// A number made to be below a bound.
pub(crate) fn below(number: u64, bound: usize) -> u16 {
    if bound == 0 {
        return 0;
    }
    (number % bound as u64 % 65_536) as u16
}

// The random day of a number.
pub(crate) fn day(day: u64, places: usize, cranes: usize, calls: usize) -> Day {
    let mut starts = [0; Day::CRANES];
    let mut requests = [0; Day::CALLS];
    for i in 0..Day::CALLS {
        starts[i % Day::CRANES] = below(number(day, 4, i), places);
        requests[i] = below(number(day, 5, i), places);
    }
    Day {
        places,
        cranes,
        calls,
        starts,
        requests,
    }
}

impl Table {
    // The part of a day's numbers that the table is drawn from.
    fn part(self) -> u64 {
        match self {
            Table::Between => 1,
            Table::Lower => 2,
            Table::Upper => 3,
        }
    }

    // The metres of a leg: in between from 300,000 to 600,000, so that no two legs are together shorter than a third; up to as many less or more.
    fn exact(self, day: u64, leg: usize) -> u32 {
        let between = 300_000 + (number(day, 1, leg) % 300_001) as u32;
        let off = (number(day, self.part(), leg) % 300_001) as u32;
        match self {
            Table::Between => between,
            Table::Lower => between - off,
            Table::Upper => between + off,
        }
    }

    // The same, on every second day rounded to 100,000, so that many costs are equal.
    fn metres(self, day: u64, leg: usize) -> u32 {
        let metres = self.exact(day, leg);
        if day % 2 == 0 {
            return metres;
        }
        metres / 100_000 % 10 * 100_000
    }

    // So many legs of a table of the day of a number.
    pub(crate) fn legs(self, day: u64, count: usize) -> [u32; Road::LEGS] {
        let mut legs = [0; Road::LEGS];
        for (leg, metres) in legs.iter_mut().enumerate().take(count) {
            *metres = self.metres(day, leg);
        }
        legs
    }
}

// So many legs, the first ones of more.
pub(crate) fn front(legs: &[u32], count: usize) -> &[u32] {
    legs.get(..count).unwrap_or(legs)
}
