// Days with every figure: document 01's edges and case A, those of paper 1, and days that show where a shorter method goes wrong.
use crate::roads::Square;
use crate::search;
use crate::search::Site;
use crate::small::{Counts, Source};
use crate::tally::Group;
use dayfile::Day;
use std::io;

// The records of three legs, three cranes and three calls.
const ROOM: usize = 108;

// A day over a square of three legs, the places of its cranes and of its calls the digits of a number, the first the last digit.
#[derive(Clone, Copy)]
struct Edge {
    legs: [u32; 3],
    counts: Counts,
    starts: usize,
    asked: usize,
}

const EDGES: [Edge; 8] = [
    // Case A. At its last call crane 0 is nearer, and the least cost falls.
    Edge {
        legs: [10, 20, 15],
        counts: Counts {
            places: 3,
            cranes: 2,
            calls: 3,
        },
        starts: 20,
        asked: 101,
    },
    // One place, one crane, one call.
    Edge {
        legs: [0, 0, 0],
        counts: Counts {
            places: 1,
            cranes: 1,
            calls: 1,
        },
        starts: 0,
        asked: 0,
    },
    // Equal sums and equal drives.
    Edge {
        legs: [10, 20, 10],
        counts: Counts {
            places: 3,
            cranes: 2,
            calls: 1,
        },
        starts: 20,
        asked: 1,
    },
    // Two cranes at one place.
    Edge {
        legs: [7, 0, 0],
        counts: Counts {
            places: 2,
            cranes: 2,
            calls: 1,
        },
        starts: 0,
        asked: 1,
    },
    // Two gates 0 metres apart: equal sums and equal drives of 0; then a crane at the other gate, and one elsewhere.
    Edge {
        legs: [0, 5, 5],
        counts: Counts {
            places: 3,
            cranes: 2,
            calls: 1,
        },
        starts: 1,
        asked: 0,
    },
    Edge {
        legs: [0, 5, 5],
        counts: Counts {
            places: 3,
            cranes: 2,
            calls: 1,
        },
        starts: 12,
        asked: 0,
    },
    // At the last call equal sums, and the second crane drives less. The ways home count: the floor is above the least cost.
    Edge {
        legs: [1, 2, 2],
        counts: Counts {
            places: 3,
            cranes: 2,
            calls: 3,
        },
        starts: 2,
        asked: 101,
    },
    // Steps out of stands count: without them the net costs of the last call are wrong.
    Edge {
        legs: [3, 1, 3],
        counts: Counts {
            places: 3,
            cranes: 3,
            calls: 3,
        },
        starts: 2,
        asked: 201,
    },
];

// Prints what the program tells of a day.
fn tell(rt: &impl Print, day: Day, run: &[u32]) -> io::Result<()> {
    let mut file = [0; ROOM];
    let length = day.write(run, &mut file).unwrap_or(0);
    let printed = report::print(file.get(..length).unwrap_or(&file));
    rt.write_all(&printed.text[..printed.length])
}

// Prints what the program tells of each day, and counts whether the brute search finds the same, by the quoted cranes and by others.
pub(crate) fn all(rt: &impl Print) -> io::Result<Group> {
    let mut group = Group::NONE;
    for (number, edge) in EDGES.iter().enumerate() {
        let day = edge.counts.day(Source::digits(edge.starts), Source::digits(edge.asked), 10);
        let square = Square::three(edge.legs);
        tell(rt, day, Site::of(&day, &square).run())?;
        group = group.add(
            search::quoted(day, &square),
            search::others(day, &square, number),
        );
    }
    Ok(group)
}
