// A day's calls by the library and by the brute search, side by side: the net costs and the quote of each are asked, and a crane is committed
// to it, the quoted one or another.
use crate::drives::Drives;
use crate::positions::{Ground, Leasts, Position, Reached, Sent};
use crate::roads::{Legs, Square};
use crate::sheets::{Posted, Row};
use crate::small::Source;
use crate::tally::Outcome;
use crate::{nets, positions};
use base::Refusal;
use book::Book;
use dayfile::Day;
use dispatch::{Dispatch, Quote, ServedDay};

// The most calls of a small day.
const CALLS: usize = 6;

// A crane is fewer numbers than this behind the quoted one: whole rounds of 1, 2, 3 and 4 cranes.
const ROUND: u64 = 12;

// Where both sides work: the search's ground, and the legs of its square, which the library is lent.
#[derive(Clone, Copy)]
pub struct Site {
    ground: Ground,
    legs: Legs,
}

impl Site {
    pub(crate) fn new(square: &Square, places: usize, cranes: usize) -> Self {
        Self {
            ground: Ground::new(*square, places, cranes),
            legs: square.legs(),
        }
    }

    // The site of a day.
    pub(crate) fn of(day: &Day, square: &Square) -> Self {
        Self::new(square, day.places, day.cranes)
    }

    // The legs that the library is lent.
    pub(crate) fn run(&self) -> &[u32] {
        self.legs.of(self.ground.places)
    }
}

// What the brute search keeps of a day: the costs of the positions reached, the cranes' starts and stands, the sum of the drives, of each
// crane and of all, and the floor.
#[derive(Clone, Copy)]
pub struct Desk {
    pub reached: Reached,
    pub starts: Position,
    pub stands: Position,
    pub drives: Drives,
    pub driven: u64,
    pub floor: u64,
}

impl Desk {
    // The desk after a crane has gone to a call, with the positions reached then.
    fn gone(&self, reached: Reached, sent: Sent, place: u16) -> Self {
        Self {
            reached,
            starts: self.starts,
            stands: positions::with(&self.stands, sent.crane, place),
            drives: self.drives.add(sent.crane, sent.metres),
            driven: self.driven.wrapping_add(sent.metres),
            floor: 0,
        }
    }
}

// What both sides tell of a call: whether the library's net costs are the search's; the library's quote; and of the search the crane that it
// would send, the work function after each crane and the positions reached with the call.
#[derive(Clone, Copy)]
struct Answers {
    netted: bool,
    quote: Quote,
    sent: Sent,
    leasts: Leasts,
    reached: Reached,
}

// Both sides after some calls: the library's book and the search's desk; the crane that the search would send to the last call; and what became
// of the day so far.
#[derive(Clone, Copy)]
pub struct Sides {
    pub book: Book,
    pub desk: Desk,
    pub sent: Sent,
    pub outcome: Outcome,
}

// Whether the crane of a call, its drive and the least cost after it are the search's.
fn alike(sent: Sent, crane: usize, metres: u32, least: u64) -> bool {
    (crane, u64::from(metres), least) == (sent.crane, sent.metres, sent.least)
}

// The crane so many numbers behind the quoted one, counted round.
fn picked(cranes: usize, quoted: usize, behind: u64) -> usize {
    if cranes == 0 {
        return quoted;
    }
    quoted.wrapping_add(behind as usize) % cranes
}

impl Sides {
    // Before the first call, over a book without calls.
    fn begin(site: &Site, book: Book) -> Result<Self, Refusal> {
        let sides = Self {
            book,
            desk: Desk {
                reached: site.ground.begin(&book.starts),
                starts: book.starts,
                stands: book.starts,
                drives: Drives::NONE,
                driven: 0,
                floor: 0,
            },
            sent: Sent::NONE,
            outcome: Outcome {
                agree: Drives::NONE.are_in(&book),
                tied: false,
                others: 0,
            },
        };
        sides.agreed(site)
    }

    // The same sides, with the floor that the search finds; they agree if they did and the book's costs are the search's.
    pub(crate) fn agreed(self, site: &Site) -> Result<Self, Refusal> {
        let costs = Dispatch::costs(self.book, site.ground.places, site.run())?;
        let floor = site.ground.work_at(&self.desk.reached, &self.desk.starts);
        let least = site.ground.work_at(&self.desk.reached, &self.desk.stands);
        let same = costs.least == least && costs.floor == floor;
        Ok(Self {
            desk: Desk { floor, ..self.desk },
            outcome: Outcome {
                agree: self.outcome.agree && same,
                ..self.outcome
            },
            ..self
        })
    }

    // What is asked at a call: of the library, and of the search.
    fn asked(&self, site: &Site, place: u16) -> Result<Answers, Refusal> {
        let ground = &site.ground;
        let stands = &self.desk.stands;
        let reached = ground.serve(&self.desk.reached, place);
        let leasts = ground.leasts(&reached, stands, place);
        let present = ground.work_at(&self.desk.reached, stands);
        let told = Dispatch::net_costs(self.book, ground.places, site.run(), place)?;
        Ok(Answers {
            netted: nets::alike(told, ground.cranes, present, &leasts),
            quote: Dispatch::quote(self.book, ground.places, site.run(), place)?,
            sent: ground.choose(&leasts, stands, place),
            leasts,
            reached,
        })
    }

    // One call more, on both sides: the crane so many numbers behind the quoted one is committed, and the desk follows it.
    pub(crate) fn call(&self, site: &Site, place: u16, behind: u64) -> Result<Self, Refusal> {
        let ground = &site.ground;
        let Answers {
            netted,
            quote,
            sent,
            leasts,
            reached,
        } = self.asked(site, place)?;
        let crane = picked(ground.cranes, quote.crane, behind);
        let moved = ground.sending(&leasts, &self.desk.stands, place, crane);
        let commit = Dispatch::commit(self.book, ground.places, site.run(), place, crane)?;
        let desk = self.desk.gone(reached, moved, place);
        let quoted = netted && alike(sent, quote.crane, quote.metres, quote.least);
        let booked = commit.least == moved.least && desk.drives.are_in(&commit.book);
        let sides = Self {
            book: commit.book,
            desk,
            sent,
            outcome: Outcome {
                agree: self.outcome.agree && quoted && booked,
                tied: self.outcome.tied || sent.tied,
                others: self
                    .outcome
                    .others
                    .wrapping_add(u64::from(crane != quote.crane)),
            },
        };
        sides.agreed(site)
    }
}

// Both sides after the calls of a day, and of each call the crane that the search would send.
#[derive(Clone, Copy)]
struct Followed {
    sides: Sides,
    sents: [Sent; CALLS],
}

// A small day from its fresh book, each call by the crane so many numbers behind the quoted one as the source tells: all net costs, every
// quote, every commit and every pair of costs.
fn follow(day: Day, site: &Site, mut cranes: Source) -> Result<Followed, Refusal> {
    let book = Book::fresh(day, site.run())?;
    let mut sides = Sides::begin(site, book)?;
    let mut sents = [Sent::NONE; CALLS];
    for (sent, &place) in sents.iter_mut().zip(&day.requests).take(day.calls) {
        sides = sides.call(site, place, cranes.next(ROUND))?;
        *sent = sides.sent;
    }
    Ok(Followed { sides, sents })
}

// Whether a served day tells the same of a call.
fn line(served: &ServedDay, call: usize, sent: Sent) -> bool {
    let i = call % Day::CALLS;
    let crane = usize::from(served.cranes[i]);
    call < served.calls && alike(sent, crane, served.metres[i], served.leasts[i])
}

// Whether the served day and the sheet tell the same of every call.
fn lines(day: &Day, sents: &[Sent; CALLS], served: &ServedDay, posted: &Posted) -> bool {
    sents
        .iter()
        .zip(&day.requests)
        .enumerate()
        .take(day.calls)
        .all(|(call, (&sent, &place))| {
            line(served, call, sent) && posted.has(Row { call, place, sent })
        })
}

// Whether the served day tells the search's sums: the drives, the distance of the last stands from the starts, the floor.
fn sums(site: &Site, told: &ServedDay, desk: &Desk) -> bool {
    let home = site.ground.distance(&desk.stands, &desk.starts);
    (told.driven, told.home, told.floor) == (desk.driven, home, desk.floor)
}

// A small day by the quoted cranes, beside the served day and the sheet.
pub(crate) fn day(day: Day, square: &Square) -> Result<Sides, Refusal> {
    let site = Site::of(&day, square);
    let Followed { sides, sents } = follow(day, &site, Source::digits(0))?;
    let served = Dispatch::serve_day(day, site.run())?;
    let posted = Posted::new(day, site.run());
    let rows = lines(&day, &sents, &served, &posted) && posted.ends(day.calls);
    let agree = sides.outcome.agree && rows && sums(&site, &served, &sides.desk);
    Ok(Sides {
        outcome: Outcome {
            agree,
            ..sides.outcome
        },
        ..sides
    })
}

// The small day of a number by cranes drawn from it.
fn day_by_others(day: Day, square: &Square, number: usize) -> Result<Sides, Refusal> {
    let site = Site::of(&day, square);
    let followed = follow(day, &site, Source::cranes(number))?;
    Ok(followed.sides)
}

// What became of both sides.
pub(crate) fn outcome(told: Result<Sides, Refusal>) -> Outcome {
    told.map_or(Outcome::REFUSED, |sides| sides.outcome)
}

// What becomes of a small day by the quoted cranes.
pub(crate) fn quoted(small: Day, square: &Square) -> Outcome {
    outcome(day(small, square))
}

// What becomes of the small day of a number by cranes drawn from it.
pub(crate) fn others(day: Day, square: &Square, number: usize) -> Outcome {
    outcome(day_by_others(day, square, number))
}
