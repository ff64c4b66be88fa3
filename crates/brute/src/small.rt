// Small days: their squares and stops, from the digits of a number or drawn at random.
ghost use Rattle.std.specs.Prelude.{◌<◌};

use crate::roads::{PAIRS, Square};
use dayfile::Day;

// Where the numbers of a day come from: the digits of a number, the lowest first, or a fixed sequence.
#[derive(Clone, Copy)]
pub enum Source {
    Digits(u64),
    Drawn(u64),
}

// The next number of the fixed sequence.
fn behind(seed: u64) -> u64 {
    seed % 2_147_483_647 * 48_271 % 2_147_483_647
}

impl Source {
    // The digits of a number.
    pub(crate) fn digits(number: usize) -> Self {
        Source::Digits(number as u64)
    }

    // The sequence for a part of a random day: 1 its legs, 2 its starts, 3 its calls, 4 one call more, 5 its cranes.
    fn drawn(number: usize, part: u64) -> Self {
        Source::Drawn(behind(behind(behind((number as u64).wrapping_add(part)))))
    }

    // The cranes of the day of a number: how far behind the quoted ones they are.
    pub(crate) fn cranes(number: usize) -> Self {
        Source::drawn(number, 5)
    }

    // The source's first number, made to be below a bound; the source is left behind it.
    pub(crate) fn next(&mut self, bound: u64) -> u64
        requires { 0 < bound }
    {
        match *self {
            Source::Digits(rest) => {
                *self = Source::Digits(rest / bound);
                rest % bound
            }
            Source::Drawn(seed) => {
                *self = Source::Drawn(behind(seed));
                seed % bound
            }
        }
    }

    // The same as a place.
    fn next_place(&mut self, bound: u64) -> u16
        requires { 0 < bound }
    {
        (self.next(bound) % 65_536) as u16
    }

    // The same as metres.
    fn next_metres(&mut self, bound: u64) -> u32
        requires { 0 < bound }
    {
        (self.next(bound) % 1_000_000) as u32
    }
}

// Five places with legs from a source, each of metres below a bound.
pub(crate) fn five(mut source: Source, bound: u64) -> Square
    requires { 0 < bound }
{
    let mut square = Square::ZERO;
    for (first, second) in PAIRS {
        square.set_leg(first, second, source.next_metres(bound));
    }
    square
}

// So many numbers below a bound, from a source to the front of a list.
fn fill(list: &mut [u16], count: usize, mut source: Source, bound: u64)
    requires { 0 < bound }
{
    for stop in list.iter_mut().take(count) {
        *stop = source.next_place(bound);
    }
}

// How many places, cranes and calls a day has.
#[derive(Clone, Copy)]
pub struct Counts {
    pub places: usize,
    pub cranes: usize,
    pub calls: usize,
    ghost some: { 0 < places },
}

impl Counts {
    // The day with stops from these sources, each a number below the bound.
    pub(crate) fn day(self, first: Source, asked: Source, bound: u64) -> Day
        requires { 0 < bound }
    {
        let mut starts = [0; Day::CRANES];
        let mut requests = [0; Day::CALLS];
        fill(&mut starts, self.cranes, first, bound);
        fill(&mut requests, self.calls, asked, bound);
        Day {
            places: self.places,
            cranes: self.cranes,
            calls: self.calls,
            starts,
            requests,
        }
    }

    // The starts and calls of the random day of a number.
    pub(crate) fn drawn_day(self, number: usize) -> Day {
        self.day(
            Source::drawn(number, 2),
            Source::drawn(number, 3),
            self.places as u64,
        )
    }

    // The shortest ways of a random day, over legs of metres below a bound.
    pub(crate) fn drawn_square(self, number: usize, bound: u64) -> Square
        requires { 0 < bound }
    {
        five(Source::drawn(number, 1), bound).closed(self.places)
    }

    // The place of one call more.
    pub(crate) fn drawn_place(self, number: usize) -> u16 {
        let mut source = Source::drawn(number, 4);
        source.next_place(self.places as u64)
    }
}
