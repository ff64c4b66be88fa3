// Serves small days by the compiled library and by a brute search over positions. The figures compared are, at every call, the net costs, the
// quote, the least of the commit, and of the new book both costs and the metres of each crane; and of a day by the quoted cranes those of the
// served day. Prints what the program tells of document 01's days; for each group how many days were tried and of how many every figure and
// the sheet agree; and for each group by other cranes than the quoted ones how many were tried, of how many every figure agrees, and how many
// calls had another crane.
// Stands on all the libraries here but `legorder`, `pairs`, `season` and `near`, and on std for writing.
#![tactic(auto)]

mod days;
mod drives;
mod edges;
mod nets;
mod past;
mod positions;
mod restored;
mod roads;
mod search;
mod sheets;
mod small;
mod tally;

use output::Onward;
use std::io;
use tally::Group;

// Prints every line: document 01's days, every small day, random days, and those whose book comes back with other weights, and with other
// entries past the counts.
fn print(rt: &impl Print) -> io::Result<()> {
    let Group { quoted, others } = edges::all(rt)?;
    println!(rt; "edges and wrong turns: {quoted}")?;
    println!(rt; "edges by other cranes: {others}")?;
    let Group { quoted, others } = days::all();
    println!(rt; "every small day: {quoted}")?;
    println!(rt; "small days by other cranes: {others}")?;
    print!(rt; "{}", days::random())?;
    let Group { quoted, others } = restored::all();
    println!(rt; "restored books: {quoted}")?;
    println!(rt; "restored books by other cranes: {others}")?;
    println!(rt; "entries past the counts: {}", past::all())
}

// A write that fails is not told, and the print goes on.
fn main(rt: HostRuntime) {
    let _ = print(&Onward { to: &rt });
}
