// Road tables: the limits, each rule, the number of legs, and the order 3, 4, 8. Prints the number that the test of each gives.
use crate::line;
use road::Road;
use std::io;

// The legs that 65 places would have.
const ROOM: usize = 2_080;

// A run, tested as the table of so many places.
fn test(rt: &impl Print, places: usize, table: &[u32]) -> io::Result<()> {
    print!(rt; " {}", base::number(Road::test(places, table)))
}

// The triangle rule, then the metres of a leg, and one place, which has no legs.
pub(crate) fn rules(rt: &impl Print) -> io::Result<()> {
    line::begin(rt, 1)?;
    test(rt, 3, &[10, 25, 15])?;
    test(rt, 3, &[10, 26, 15])?;
    test(rt, 3, &[26, 10, 15])?;
    test(rt, 3, &[10, 15, 26])?;
    test(rt, 3, &[0, 5, 5])?;
    test(rt, 3, &[0, 5, 6])?;
    line::begin(rt, 2)?;
    test(rt, 2, &[1_000_000])?;
    test(rt, 2, &[1_000_001])?;
    test(rt, 2, &[0])?;
    test(rt, 1, &[])
}

// 65 places, with no legs and with as many as they would have, and 0 places. Then 3 before 4, of the places and of the number of legs, and 4
// before 8.
pub(crate) fn order(rt: &impl Print) -> io::Result<()> {
    line::begin(rt, 3)?;
    test(rt, 65, &[])?;
    test(rt, 65, &[0; ROOM])?;
    test(rt, 0, &[])?;
    test(rt, 65, &[1_000_001; ROOM])?;
    test(rt, 3, &[1_000_001; 2])?;
    test(rt, 3, &[10, 1_000_001, 15])?;
    // A run longer or shorter than the legs of its stated number of places gives 3.
    line::begin(rt, 4)?;
    test(rt, 3, &[10; 2])?;
    test(rt, 3, &[10; 4])?;
    test(rt, 2, &[10; 3])?;
    test(rt, 1, &[10])?;
    test(rt, 64, &[1_000_000; 2_016])?;
    test(rt, 64, &[1_000_000; 2_015])?;
    test(rt, 64, &[1_000_000; 2_017])?;
    test(rt, 63, &[1_000_000; 2_016])
}
