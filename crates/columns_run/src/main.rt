// Runs the operations on column sets over a handful of sets, the empty and the full one, sets of one word and of both among them, and
// columns on both sides of a word's and of a set's last.
#![tactic(auto)]

use columns::{ColumnSet, ROW_WORDS};
use std::io;

// Two words a set, the low one first.
const WORDS: [u64; 16] = [
    0,
    0,
    1,
    0,
    9223372036854775808,
    0,
    0,
    1,
    0,
    9223372036854775808,
    12297829382473034410,
    81985529216486895,
    9223372036854775809,
    2147483649,
    18446744073709551615,
    18446744073709551615,
];

const PLACES: [usize; 14] = [0, 1, 7, 8, 11, 12, 31, 63, 64, 65, 95, 96, 127, 128];

// A set as the two words that it puts into an area.
fn words(rt: &impl Print, set: ColumnSet) -> io::Result<()> {
    let mut area = [0u64; ROW_WORDS];
    columns::put_row(&mut area, 0, set);
    print!(rt; " {} {}", area[0], area[1])
}

fn yes_no(holds: bool) -> &'static str {
    if holds { "yes" } else { "no" }
}

fn nth(i: usize) -> ColumnSet {
    columns::row(&WORDS, i)
}

// One line: the set's words, size and first column, and whether it is empty.
fn describe(rt: &impl Print, set: ColumnSet) -> io::Result<()> {
    rt.write_all(b"set")?;
    words(rt, set)?;
    let empty = yes_no(set.is_empty());
    println!(rt; " {} {} {empty}", set.size(), set.first())
}

// One line: the set and a column.
fn at(rt: &impl Print, set: ColumnSet, x: usize) -> io::Result<()> {
    let contains = yes_no(set.contains(x));
    let within = yes_no(set.within(x));
    print!(rt; "at {x} {contains} {within}")?;
    words(rt, set.with(x))?;
    words(rt, set.without(x))?;
    words(rt, ColumnSet::below(x))?;
    words(rt, set.raised(x))?;
    words(rt, set.lowered(x))?;
    println!(rt; " {}", set.byte(x))
}

// One line: two sets.
fn pair(rt: &impl Print, set: ColumnSet, other: ColumnSet) -> io::Result<()> {
    rt.write_all(b"pair")?;
    words(rt, set.union(other))?;
    words(rt, set.intersection(other))?;
    words(rt, set.difference(other))?;
    println!(rt; " {}", yes_no(set.touches(other)))
}

// One line: of the sets as rows, how many there are below each end, and which is the last to touch the set.
fn over_rows(rt: &impl Print, set: ColumnSet) -> io::Result<()> {
    rt.write_all(b"rows")?;
    for end in 0..10 {
        let below = columns::rows_below(&WORDS, end);
        let last = columns::last_touching(&WORDS, end, set);
        print!(rt; " {below} {last}")?;
    }
    rt.write_all(b"\n")
}

fn over_places(rt: &impl Print, set: ColumnSet) -> io::Result<()> {
    for x in PLACES {
        at(rt, set, x)?;
    }
    Ok(())
}

fn over_sets(rt: &impl Print, set: ColumnSet) -> io::Result<()> {
    for i in 0..8 {
        pair(rt, set, nth(i))?;
    }
    Ok(())
}

// One line: the empty set, and those of few and of many bytes.
fn read(rt: &impl Print) -> io::Result<()> {
    words(rt, ColumnSet::empty())?;
    words(rt, ColumnSet::of_bytes(b""))?;
    words(rt, ColumnSet::of_bytes(b"\x02"))?;
    words(rt, ColumnSet::of_bytes(b"\x01\x02\x03\x04\x05\x06\x07\x80"))?;
    words(
        rt,
        ColumnSet::of_bytes(b"\xff\xff\xff\xff\xff\xff\xff\xff\xff"),
    )?;
    words(
        rt,
        ColumnSet::of_bytes(b"\x00\x00\x00\x00\x00\x00\x00\x00\x01\x02\x03\x84"),
    )?;
    words(
        rt,
        ColumnSet::of_bytes(
            b"\x01\x02\x03\x04\x05\x06\x07\x08\x09\x0a\x0b\x0c\x0d\x0e\x0f\x10\x11",
        ),
    )?;
    rt.write_all(b"\n")
}

fn main(rt: HostRuntime) -> io::Result<()> {
    read(&rt)?;
    for i in 0..8 {
        let set = nth(i);
        describe(&rt, set)?;
        over_places(&rt, set)?;
        over_sets(&rt, set)?;
        over_rows(&rt, set)?;
    }
    Ok(())
}
