// The roads of a small day: the square of metres, which the brute search reads, and the legs in the order of a file, which the library is
// lent.

// The most places of a day that is searched.
pub(crate) const PLACES: usize = 5;

// The legs of so many places.
const LEGS: usize = 10;

// The places of each leg, in the order of a file.
pub(crate) const PAIRS: [(usize, usize); LEGS] = [
    (0, 1),
    (0, 2),
    (1, 2),
    (0, 3),
    (1, 3),
    (2, 3),
    (0, 4),
    (1, 4),
    (2, 4),
    (3, 4),
];

// The legs of 0 to 5 places.
const COUNTS: [usize; PLACES + 1] = [0, 0, 1, 3, 6, 10];

// For each place and each other the metres between them, and 0 from a place to itself.
#[derive(Clone, Copy)]
pub struct Square {
    rows: [[u32; PLACES]; PLACES],
}

impl Square {
    // All places at one point.
    pub(crate) const ZERO: Square = Square {
        rows: [[0; PLACES]; PLACES],
    };

    // Three places with these legs.
    pub(crate) fn three(legs: [u32; 3]) -> Self {
        let [a, b, c] = legs;
        Self {
            rows: [
                [0, a, b, 0, 0],
                [a, 0, c, 0, 0],
                [b, c, 0, 0, 0],
                [0; PLACES],
                [0; PLACES],
            ],
        }
    }

    // The metres from one place to another.
    fn metres(&self, from: usize, to: usize) -> u32 {
        self.rows[from % PLACES][to % PLACES]
    }

    // The same as a cost.
    pub(crate) fn way(&self, from: usize, to: usize) -> u64 {
        u64::from(self.metres(from, to))
    }

    // Other metres from one place to another.
    fn set(&mut self, from: usize, to: usize, metres: u32) {
        self.rows[from % PLACES][to % PLACES] = metres;
    }

    // Another leg, both ways.
    pub(crate) fn set_leg(&mut self, first: usize, second: usize, metres: u32) {
        self.set(first, second, metres);
        self.set(second, first, metres);
    }

    // Twice the metres.
    pub(crate) fn doubled(&self) -> Self {
        Self {
            rows: self
                .rows
                .map(|row| row.map(|metres| metres.wrapping_mul(2))),
        }
    }

    // The metres of the way by a third place.
    fn around(&self, from: usize, by: usize, to: usize) -> u32 {
        self.metres(from, by).saturating_add(self.metres(by, to))
    }

    // Whether no way by a third place is shorter than a leg, of at most three places.
    pub(crate) fn is_metric(&self, places: usize) -> bool {
        places < 3
            || (self.metres(0, 1) <= self.around(0, 2, 1)
                && self.metres(0, 2) <= self.around(0, 1, 2)
                && self.metres(1, 2) <= self.around(1, 0, 2))
    }

    // The shortest ways: third place by third place, every leg that a way by it undercuts.
    pub(crate) fn closed(&self, places: usize) -> Self {
        let mut short = *self;
        for by in 0..places {
            for from in 0..places {
                for to in 0..places {
                    let metres = short.metres(from, to).min(short.around(from, by, to));
                    short.set(from, to, metres);
                }
            }
        }
        short
    }

    // All legs, in the order of a file.
    pub(crate) fn legs(&self) -> Legs {
        Legs {
            metres: PAIRS.map(|(first, second)| self.metres(first, second)),
        }
    }
}

// The legs of a square.
#[derive(Clone, Copy)]
pub struct Legs {
    metres: [u32; LEGS],
}

impl Legs {
    // The first of them, so many.
    pub(crate) fn front(&self, count: usize) -> &[u32] {
        self.metres.get(..count).unwrap_or(&self.metres)
    }

    // Those of so many places.
    pub(crate) fn of(&self, places: usize) -> &[u32] {
        self.front(COUNTS[places % COUNTS.len()])
    }
}
