// A small numbered model: written, read into areas of several lengths, and judged in a file and handed over.
ghost use Rattle.std.specs.Prelude.{◌≤◌};

use crate::{changed, prefixes, said};
use format::{judge_file, judge_model};
use loader::read_file;
use models::LentModel;
use std::io;
use writer::write_file;

// The fields of numbers start there in the model's file, which is so long; each takes five bytes.
const FIRST: usize = 29;

const SECOND: usize = 45;

const LENGTH: usize = 53;

const FIELD: usize = 5;

// The numbers of the model in the file are 17 and 18; the entries without a parameter, which have 9, are not written.
const NUMBERS: [u16; 4] = [17, 9, 9, 18];

static CONSTANTS: [u16; 2] = [1, 0];

static PARAMETERS: [u64; 4] = [1, 0, 2, 0];

// p 1,021, n 2, one constant row 1 0, the parameter rows {0} and {1}, and two entries of numbers for each of them.
fn numbered_model<'a>(numbers: &'a [u16]) -> LentModel<'a> {
    LentModel {
        numbers: Some(numbers),
        ..LentModel::unnumbered(1021, 2, 1, 2, &CONSTANTS, &PARAMETERS)
    }
}

fn sample() -> [u8; LENGTH] {
    let mut file = [0u8; LENGTH];
    let _ = write_file(&numbered_model(&NUMBERS), &mut file);
    file
}

fn written(rt: &impl Print) -> io::Result<()> {
    let mut out = [7u8; 54];
    let written = write_file(&numbered_model(&NUMBERS), &mut out);
    said::label(rt, b"numbered written")?;
    said::length(rt, written)?;
    said::numbers(rt, &out)?;
    said::end_line(rt)
}

// The file is read with the first k numbers lent; the area is printed whole.
fn read_into(rt: &impl Print, file: &[u8], numbers: &mut [u16; 5], k: usize) -> io::Result<()>
    requires { k ≤ 5 }
{
    let mut constants = [7u16; 2];
    let mut parameters = [7u64; 4];
    let read = read_file(file, &mut constants, &mut parameters, &mut numbers[..k]);
    said::sizes(rt, read)?;
    said::numbers(rt, &constants)?;
    said::numbers(rt, &parameters)?;
    said::numbers(rt, &numbers[..])?;
    said::end_line(rt)
}

fn read(rt: &impl Print) -> io::Result<()> {
    let file = sample();
    let mut numbers = [7u16; 5];
    said::label(rt, b"numbers short")?;
    read_into(rt, &file, &mut numbers, 3)?;
    said::label(rt, b"numbers just long enough")?;
    read_into(rt, &file, &mut numbers, 4)?;
    let mut others = [9u16; 5];
    said::label(rt, b"numbers longer")?;
    read_into(rt, &file, &mut others, 5)
}

// The file and all that it starts with, one byte changed in it at a time, and a number twice.
fn judged(rt: &impl Print) -> io::Result<()> {
    let mut file = sample();
    said::label(rt, b"numbered file")?;
    said::refusal(rt, judge_file(&file))?;
    said::end_line(rt)?;
    prefixes(rt, &file)?;
    changed(rt, &mut file)?;
    file[SECOND + 3] = 17;
    file[SECOND + 4] = 0;
    said::label(rt, b"number twice")?;
    said::refusal(rt, judge_file(&file))?;
    said::end_line(rt)
}

// The file without the field of numbers that starts there.
fn judged_without(rt: &impl Print, start: usize) -> io::Result<()>
    requires { start ≤ 48 }
{
    let file = sample();
    let mut other = [0u8; LENGTH - FIELD];
    other[..start].copy_from_slice(&file[..start]);
    other[start..].copy_from_slice(&file[start + FIELD..]);
    said::refusal(rt, judge_file(&other))
}

fn one_row_numbered(rt: &impl Print) -> io::Result<()> {
    said::label(rt, b"second row alone, first row alone")?;
    judged_without(rt, FIRST)?;
    judged_without(rt, SECOND)?;
    said::end_line(rt)
}

fn handed(rt: &impl Print, numbers: &[u16]) -> io::Result<()> {
    said::refusal(rt, judge_model(&numbered_model(numbers)))
}

fn handed_over(rt: &impl Print) -> io::Result<()> {
    said::label(rt, b"apart, twice, twice without a parameter, short")?;
    handed(rt, &[17, 0, 0, 18])?;
    handed(rt, &[17, 0, 0, 17])?;
    let elsewhere = [17u16, 17, 18, 18];
    handed(rt, &elsewhere)?;
    handed(rt, &elsewhere[..3])?;
    said::end_line(rt)
}

pub fn small(rt: &impl Print) -> io::Result<()> {
    written(rt)?;
    read(rt)?;
    judged(rt)?;
    one_row_numbered(rt)?;
    handed_over(rt)
}
