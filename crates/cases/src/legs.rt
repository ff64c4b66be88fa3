// The pairs of places of legs: all legs one after another, beside their index, their pair and the two tables; then numbers that are no leg's
// index, and pairs that are no leg.
use crate::line;
use legorder::{Columns, Pair};
use road::Road;
use std::io;

// The first number that is not looked at as a place.
const END: u16 = 66;

// The first leg.
pub(crate) const FIRST: Pair = Pair {
    first: 0,
    second: 1,
};

// The leg after a leg: by second place, then by first.
pub(crate) fn after(leg: Pair) -> Pair {
    let first = leg.first.wrapping_add(1);
    if first < leg.second {
        return Pair {
            first,
            second: leg.second,
        };
    }
    Pair {
        first: 0,
        second: leg.second.wrapping_add(1),
    }
}

// All legs in order.
fn all() -> [Pair; Road::LEGS] {
    let mut legs = [FIRST; Road::LEGS];
    let mut leg = FIRST;
    for entry in legs.iter_mut() {
        *entry = leg;
        leg = after(leg);
    }
    legs
}

// Whether the leg is found by its index.
fn found(index: usize, leg: Pair) -> bool {
    pairs::pair_at(index).is_ok_and(|pair| pair == leg)
}

// Whether the index is found by the leg.
fn placed(index: usize, leg: Pair) -> bool {
    pairs::index_of(leg.first, leg.second).is_ok_and(|told| told == index)
}

// How many legs are found by their index, and how many indices by their leg.
fn lookups(rt: &impl Print, legs: &[Pair]) -> io::Result<()> {
    let by_index = legs
        .iter()
        .enumerate()
        .filter(|&(index, &leg)| found(index, leg))
        .count();
    let by_leg = legs
        .iter()
        .enumerate()
        .filter(|&(index, &leg)| placed(index, leg))
        .count();
    print!(rt; " {by_index} {by_leg}")
}

// How many legs two columns have at their index.
fn listed(rt: &impl Print, legs: &[Pair], columns: Columns) -> io::Result<()> {
    let places = columns.firsts.iter().zip(columns.seconds.iter());
    let many = legs
        .iter()
        .zip(places)
        .filter(|&(&leg, (&first, &second))| leg == Pair { first, second })
        .count();
    print!(rt; " {many}")
}

// The pair at an index.
fn at(rt: &impl Print, index: usize) -> io::Result<()> {
    match pairs::pair_at(index) {
        Ok(pair) => print!(rt; " 0 {} {},", pair.first, pair.second),
        Err(refusal) => print!(rt; " {} 0 0,", u8::from(refusal)),
    }
}

// The index of a pair.
fn of(rt: &impl Print, first: u16, second: u16) -> io::Result<()> {
    let found = pairs::index_of(first, second);
    print!(rt; " {} {},", base::number(found), found.unwrap_or(0))
}

// Whether a pair is refused by 5.
fn refuses(first: u16, second: u16) -> bool {
    base::number(pairs::index_of(first, second)) == 5
}

// How many of the pairs of numbers below `END` are refused.
fn refused(rt: &impl Print) -> io::Result<()> {
    let mut count = 0u64;
    for second in 0..END {
        for first in 0..END {
            count = count.wrapping_add(u64::from(refuses(first, second)));
        }
    }
    print!(rt; " {count}")
}

// Every leg by its index, by its pair, in the table that is held and in the one that is worked out.
pub(crate) fn each(rt: &impl Print) -> io::Result<()> {
    let legs = all();
    line::begin(rt, 38)?;
    lookups(rt, &legs)?;
    listed(rt, &legs, pairs::held())?;
    listed(rt, &legs, legorder::generate())
}

// Some indices and some pairs, and how many pairs are refused.
pub(crate) fn some(rt: &impl Print) -> io::Result<()> {
    line::begin(rt, 39)?;
    at(rt, 1_500)?;
    at(rt, 2_015)?;
    at(rt, 2_016)?;
    at(rt, usize::MAX)?;
    line::begin(rt, 40)?;
    of(rt, 15, 55)?;
    of(rt, 62, 63)?;
    of(rt, 3, 3)?;
    of(rt, 4, 3)?;
    of(rt, 0, 64)?;
    of(rt, 0, u16::MAX)?;
    line::begin(rt, 41)?;
    refused(rt)
}
