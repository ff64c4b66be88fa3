// The work function by its definition: a search over all positions, call by call. It reads the square of metres and shares nothing
// with `road` and `book`: it has no run of legs, no plan and no weights.
use crate::roads::{PLACES, Square};
use dayfile::Day;

// The most cranes of a day that is searched.
const SLOTS: usize = 4;

// As many as there are lists of four of five places, the most cranes and places of a day that is searched.
const POSITIONS: usize = 625;

// More than any movement costs: where no movement leads.
const FAR: u64 = 1_000_000_000_000;

// The places of a day's cranes, of which as many count as there are cranes.
pub type Position = [u16; Day::CRANES];

// For each position, by its code, the least cost of a movement that has come to it.
pub type Reached = [u64; POSITIONS];

// For each crane, by its number, the work function after it is sent to a call; 0 past the cranes.
pub type Leasts = [u64; Day::CRANES];

// The codes and the pairings of 0 to 4 cranes.
const CODES: [usize; SLOTS + 1] = [1, 5, 25, 125, 625];

const COUNTS: [usize; SLOTS + 1] = [1, 1, 2, 6, 24];

// Every way to pair the slots of two positions of four cranes: for each slot the one that it is paired with. The first two are those of two
// cranes, the first six those of three.
const PAIRINGS: [[usize; SLOTS]; 24] = [
    [0, 1, 2, 3],
    [1, 0, 2, 3],
    [0, 2, 1, 3],
    [1, 2, 0, 3],
    [2, 0, 1, 3],
    [2, 1, 0, 3],
    [0, 1, 3, 2],
    [0, 3, 1, 2],
    [1, 0, 3, 2],
    [1, 3, 0, 2],
    [3, 0, 1, 2],
    [3, 1, 0, 2],
    [0, 2, 3, 1],
    [0, 3, 2, 1],
    [2, 0, 3, 1],
    [2, 3, 0, 1],
    [3, 0, 2, 1],
    [3, 2, 0, 1],
    [1, 2, 3, 0],
    [1, 3, 2, 0],
    [2, 1, 3, 0],
    [2, 3, 1, 0],
    [3, 1, 2, 0],
    [3, 2, 1, 0],
];

// The place at a slot.
fn at(position: &Position, slot: usize) -> usize {
    usize::from(position[slot % Day::CRANES])
}

// A position with another place at one slot.
pub(crate) fn with(position: &Position, slot: usize, place: u16) -> Position {
    let mut moved = *position;
    moved[slot % Day::CRANES] = place;
    moved
}

// The position of a code: its digits to the base of five.
fn position(code: usize) -> Position {
    let mut position = [0; Day::CRANES];
    position[0] = (code % 5) as u16;
    position[1] = (code / 5 % 5) as u16;
    position[2] = (code / 25 % 5) as u16;
    position[3] = (code / 125 % 5) as u16;
    position
}

// Where the search looks: the square, how many places and cranes a day has, how many codes its positions have, and how many pairings two of them.
#[derive(Clone, Copy)]
pub struct Ground {
    square: Square,
    pub places: usize,
    pub cranes: usize,
    codes: usize,
    pairings: usize,
}

// The crane that is sent: its number, its way and the work function after its move, the sum of the two, and whether another crane
// has the same sum.
#[derive(Clone, Copy)]
pub struct Sent {
    pub crane: usize,
    pub metres: u64,
    pub least: u64,
    pub sum: u64,
    pub tied: bool,
}

impl Sent {
    // Before the first call.
    pub(crate) const NONE: Sent = Sent {
        crane: 0,
        metres: 0,
        least: 0,
        sum: 0,
        tied: false,
    };

    // Of this crane and a later one the one that is sent: by the lesser sum, then the lesser way, then the lower number, which is the first's.
    fn preferred(self, second: Sent) -> Sent {
        let equal = self.sum == second.sum;
        let is_second = (second.sum, second.metres) < (self.sum, self.metres);
        let sent = if is_second { second } else { self };
        Sent {
            tied: sent.tied || equal,
            ..sent
        }
    }
}

impl Ground {
    pub(crate) fn new(square: Square, places: usize, cranes: usize) -> Self {
        Self {
            square,
            places,
            cranes,
            codes: CODES[cranes % CODES.len()],
            pairings: COUNTS[cranes % COUNTS.len()],
        }
    }

    // The sum of the ways of one pairing.
    fn paired(&self, a: &Position, b: &Position, pairing: &[usize; SLOTS]) -> u64 {
        a.iter()
            .zip(pairing)
            .take(self.cranes)
            .fold(0u64, |sum, (&from, &slot)| {
                sum.wrapping_add(self.square.way(usize::from(from), at(b, slot)))
            })
    }

    // The distance of two positions: the least over all pairings.
    pub(crate) fn distance(&self, a: &Position, b: &Position) -> u64 {
        PAIRINGS.iter().take(self.pairings).fold(
            FAR,
            |least, pairing| least.min(self.paired(a, b, pairing)),
        )
    }

    // The place at a slot, 0 past the cranes.
    fn digit(&self, position: &Position, slot: usize) -> usize {
        if slot < self.cranes {
            at(position, slot)
        } else {
            0
        }
    }

    // The code of a position.
    fn code(&self, position: &Position) -> usize {
        self.digit(position, 0) % 5
            + self.digit(position, 1) % 5 * 5
            + self.digit(position, 2) % 5 * 25
            + self.digit(position, 3) % 5 * 125
    }

    // Whether a code's position is one of the day, and the one of all its orders in which no place is below the next.
    fn lists(&self, code: usize) -> bool {
        let second = code / PLACES % PLACES;
        let third = code / 25 % PLACES;
        code % PLACES < self.places
            && second <= code % PLACES
            && third <= second
            && code / 125 <= third
    }

    // Whether a crane is at the place.
    fn holds(&self, position: &Position, place: u16) -> bool {
        position.iter().take(self.cranes).any(|&at| at == place)
    }

    // The movements that have not left the starts. Places are told apart by number: another place may be 0 metres away.
    pub(crate) fn begin(&self, starts: &Position) -> Reached {
        let mut reached = [FAR; POSITIONS];
        reached[self.code(starts) % POSITIONS] = 0;
        reached
    }

    // The work function at an end: the least, over all positions that movements have come to, of the cost so far and the distance. A position
    // whose cost so far is no less than the least found is passed over.
    pub(crate) fn work_at(&self, reached: &Reached, end: &Position) -> u64 {
        reached
            .iter()
            .enumerate()
            .take(self.codes)
            .fold(FAR, |least, (code, &so_far)| {
                if so_far < least {
                    least.min(so_far.wrapping_add(self.distance(&position(code), end)))
                } else {
                    least
                }
            })
    }

    // One call more: every position that contains its place.
    pub(crate) fn serve(&self, reached: &Reached, place: u16) -> Reached {
        let mut next = [FAR; POSITIONS];
        for (code, cost) in next.iter_mut().enumerate().take(self.codes) {
            let end = position(code);
            if self.lists(code) && self.holds(&end, place) {
                *cost = self.work_at(reached, &end);
            }
        }
        next
    }

    // The work function at the stands with each crane in its turn moved to the place of a call, where `reached` has the call as its last.
    pub(crate) fn leasts(&self, reached: &Reached, stands: &Position, place: u16) -> Leasts {
        let mut leasts = [0; Day::CRANES];
        for (crane, least) in leasts.iter_mut().enumerate().take(self.cranes) {
            *least = self.work_at(reached, &with(stands, crane, place));
        }
        leasts
    }

    // What sending a crane costs.
    pub(crate) fn sending(
        &self,
        leasts: &Leasts,
        stands: &Position,
        place: u16,
        crane: usize,
    ) -> Sent {
        let metres = self.square.way(at(stands, crane), usize::from(place));
        let least = leasts[crane % Day::CRANES];
        Sent {
            crane,
            metres,
            least,
            sum: least.wrapping_add(metres),
            tied: false,
        }
    }

    // The choice among all cranes.
    pub(crate) fn choose(&self, leasts: &Leasts, stands: &Position, place: u16) -> Sent {
        let first = self.sending(leasts, stands, place, 0);
        (1..self.cranes).fold(first, |best, crane| {
            best.preferred(self.sending(leasts, stands, place, crane))
        })
    }
}
