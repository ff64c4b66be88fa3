// Runs document 01's cases on the compiled library and prints what each gives, below a legend of the lines. Stands on all the libraries here
// but `season` and `rough`, and on std for writing.
#![tactic(auto)]

mod books;
mod calls;
mod days;
mod entries;
mod files;
mod legs;
mod line;
mod nearby;
mod prints;
mod sheets;
mod tables;

use output::Onward;
use std::io;

// The file of case A.
const FILE_A: [u8; 96] =
    *b"\x01\0\0\0\x01\0\0\0\x0a\0\0\0\x01\0\0\0\x02\0\0\0\x14\0\0\0\x01\0\x01\0\x02\0\0\0\x0f\0\0\0\x02\0\0\0\0\0\0\0\0\0\0\0\x02\0\x02\0\0\0\0\0\0\0\0\0\x03\0\x01\0\0\0\0\0\0\0\0\0\x03\0\0\0\0\0\0\0\0\0\0\0\x03\0\x01\0\0\0\0\0\0\0\0\0";

// What the numbered lines are.
const LEGEND: &str = "Tables: the number of the test.
1 the triangle rule kept and broken, the last two over a leg of 0
2 1000000, 1000001 and 0 metres; one place
3 65 places by 0 numbers and by 2080, 0 places; 3 before 4, of the places and of the legs; 4 before 8
4 three places by 2 numbers and by 4, two by 3, one by 1; 64 by 2016, 2015 and 2017; 63 by 2016
Files: the number, the record, whether the day that was read is written back the same, and the sum of its table.
5 case A; triangles and metres, the last two over a leg of 0
6 lengths
7 other kinds and bytes that are not 0
8 records out of order
9 legs missing
10 2 before 3 before 4
11 places past the last
12 no crane
13 sixteen cranes and seventeen
14 256 calls and 257
15 the longest and longer
Days in memory: the numbers of the test, of a fresh book, of the served day and of a sheet into no room; of a write the number, the length and whether the rest is as before.
16 accepted, and by each number; legs 10, 0, 15; one place by 0 numbers and 1, three by 2 and 4, 64 by 2016 and 2015
17 3 before 6: no place, three by 2 numbers and 4; 6 before 7 before 4 before 5 before 8
18 into 95 bytes, the same by 8, into 96 and 97
Books: the number of the test; the number of the costs, least and floor; the number of the net costs, and whether all are 0; the number of the quote, and whether the rest of it is 0; the number of the commit, and whether its least is 0 and its book the same.
19 one crane and no call; sixteen and 256; one crane over one place, and over 64
20 65 places; three by 2 numbers and 4, one by 1, 64 by 2015; other counts, places past the last, legs
21 a stand named twice, a follower out of range, back to an earlier call
22 a crane driven away, and its weight raised
23 weights
24 sixteen cranes and 256 calls: 256000000 metres, and one more; one crane and no call: 1 metre, and 4294967295 past the crane
25 3 before 6: no place, three by 2 numbers and 4; 6 before 7 before 4 before 5 before 8 before 9 before 10 before 13, then 5 before 12 before 7
26 one crane: crane 0, crane 1 and the highest number; sixteen: crane 15 and crane 16
27 a fresh one, that of a day refused by 8, and by 3
28 a book filled, quotes and commits accepted, and one more; sixteen cranes sent 7 metres away by 256 calls
Case A before its last call: the number of the net costs, those of cranes 0 and 1, and whether the rest are 0; the number of the quote, crane, metres and least; the number of a commit, its least, and the least and the floor of its book.
29 the net costs, and those of place 3; the quote; cranes 0, 1 and 2; crane 2 to place 3
30 with entries past the counts that break every rule: the net costs; the quote; cranes 0 and 1, and whether the book is that of 29 and is 0 past its counts
Case A after its last call: the metres of cranes 0 and 1, and their sum.
31 the quoted crane; crane 0; of the served day the sum, the way home and the floor
Prints: the text of the print, then of the sheet, and whether all bytes past each are 0.
32 case A; one place and one crane; the same and a call
33 an empty file; 13 bytes; legs missing; legs 10, 26, 15
Sheets: the rows, the number, the length and whether the rest is as before.
34 case A into 83, 84 and 85 bytes; legs 10, 26, 15 into 83 and 84; 2 numbers into 84
35 no calls into no bytes and into 85
36 case A, with numbers past the counts that break every rule
37 the last row of 256 calls; place 63 and crane 15
Legs by their index: the number and the places; by their places: the number and the index.
38 of all 2016 legs, how many are found by their index, how many by their places, how many stand in the table that is held, and in the one that is worked out
39 1500, 2015, 2016 and 18446744073709551615
40 15 and 55, 62 and 63, 3 and 3, 4 and 3, 0 and 64, 0 and 65535
41 of the 4356 pairs of numbers below 66, how many are refused
Cranes near a place: the number, how many, the nearest and the list; then how many answers are those of a search through all cranes for each entry. Places that hold a crane: the number, how many and the lowest that holds none, and the two counted place by place.
42 four cranes over four places, two of them at place 1, which is 0 metres from place 0: each place and place 4 within 0, 4, 5 and 9 metres; the places held; how many of 720 questions are answered rightly, with eight distances and buffers for 0 to 17 numbers
43 the same of one crane at place 3
44 the same of the book of 42 after two cranes were sent
45 the same with entries past the counts that break every rule
46 a list of three into 2, 3 and 4 numbers; 5 before 11; without cranes, 6 before both; and the places held
47 sixteen cranes at 16 places of 16, of 64, and at one of one";

// Road tables and day files; `file` is that of case A.
fn read(rt: &impl Print, file: &[u8]) -> io::Result<()> {
    tables::rules(rt)?;
    tables::order(rt)?;
    files::metres(rt, file)?;
    files::kinds(rt)?;
    files::order(rt)?;
    files::stops(rt)?;
    files::cranes(rt)?;
    files::calls(rt)
}

// Days, books and calls in memory, prints and sheets; `file` is that of case A.
fn memory(rt: &impl Print, file: &[u8]) -> io::Result<()> {
    days::each(rt)?;
    days::order(rt)?;
    books::counts(rt)?;
    books::plans(rt)?;
    books::weights(rt)?;
    books::metres(rt)?;
    books::order(rt)?;
    books::cranes(rt)?;
    books::fresh(rt)?;
    calls::last(rt)?;
    calls::driven(rt)?;
    prints::days(rt, file)?;
    prints::refusals(rt)?;
    sheets::buffers(rt)?;
    sheets::past(rt)?;
    sheets::widths(rt)
}

// The legend, and every case.
fn print(rt: &impl Print) -> io::Result<()> {
    // In one write: of a print in pieces a piece that fails takes those behind it along.
    rt.write_all(LEGEND.as_bytes())?;
    read(rt, &FILE_A)?;
    memory(rt, &FILE_A)?;
    legs::each(rt)?;
    legs::some(rt)?;
    nearby::each(rt)?;
    print!(rt; "\n")
}

fn main(rt: HostRuntime) {
    // A write that fails is not told, and the print goes on: only the whole print, which is compared with another, says anything.
    let _ = print(&Onward { to: &rt });
}
