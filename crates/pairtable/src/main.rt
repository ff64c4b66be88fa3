// Prints the source of the table that `pairs` holds, src/table.rt of that crate, from the pairs that `legorder` works out. A write that fails
// is told on standard error, and the lines behind it are written all the same. Stands on `legorder`, and on std for writing.
#![tactic(auto)]

use std::io;

// A constant: its comment and its head, then a line for each place, an entry and the index of its leg.
fn constant(rt: &impl Print, comment: &str, name: &str, places: &[u16]) -> io::Result<()> {
    let mut written = println!(rt; "// {comment}").and(println!(rt;
        "pub(crate) const {name}: [u16; Road::LEGS] = ["
    ));
    for (index, place) in places.iter().enumerate() {
        written = written.and(println!(rt; "    {place}, // {index}"));
    }
    written.and(println!(rt; "];"))
}

// The file: its head, and the two constants.
fn file(rt: &impl Print) -> io::Result<()> {
    let columns = legorder::generate();
    println!(rt;
        "// The places of each leg in the order of the day file, each entry with the index of its leg. The program `pairtable` prints this file."
    ).and(println!(rt; "use road::Road;\n"))
        .and(constant(
            rt,
            "The first place of each leg.",
            "FIRSTS",
            &columns.firsts,
        ))
        .and(println!(rt; ""))
        .and(constant(
            rt,
            "The second place of each leg.",
            "SECONDS",
            &columns.seconds,
        ))
}

fn main(rt: HostRuntime) {
    if file(&rt).is_err() {
        let _ = eprintln!(rt; "pairtable: write failed");
    }
}
