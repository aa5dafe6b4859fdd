// The longest files, unnumbered and numbered: written, read, and written again.
use crate::rows::looked_up;
use crate::said;
use columns::{ColumnSet, MOST_WORDS};
use limits::{LARGEST_PRIME, LONGEST_FILE, MOST_COLUMNS, MOST_ROWS};
use loader::read_file;
use models::LentModel;
use std::io;
use writer::write_file;

const MOST_ENTRIES: usize = MOST_ROWS * MOST_COLUMNS;

fn fill_constants(constants: &mut [u16]) {
    for (i, constant) in constants.iter_mut().enumerate() {
        *constant = (i % 4096 * 15) as u16;
    }
}

// Every word is below 2 to the 32: a high word has no column from 96 on.
fn fill_parameters(parameters: &mut [u64]) {
    let mut set: u64 = 1;
    for word in parameters.iter_mut() {
        *word = set;
        set = set % 1073741824 * 3 + 1;
    }
}

// Each row has a parameter at every column: the fields of numbers are as long as they may be.
fn fill_rows(parameters: &mut [u64]) {
    for r in 0..MOST_ROWS {
        columns::put_row(parameters, r, ColumnSet::below(MOST_COLUMNS));
    }
}

// The first 9,362 differ.
fn fill_numbers(numbers: &mut [u16]) {
    for (i, number) in numbers.iter_mut().enumerate() {
        *number = (i % 9362 * 7) as u16;
    }
}

pub fn unnumbered(rt: &impl Print) -> io::Result<()> {
    let mut constants = [0u16; MOST_ENTRIES];
    let mut parameters = [0u64; MOST_WORDS];
    fill_constants(&mut constants);
    fill_parameters(&mut parameters);
    said::label(rt, b"longest unnumbered")?;
    there_and_back(rt, &constants, &parameters, None)
}

pub fn numbered(rt: &impl Print) -> io::Result<()> {
    let mut constants = [0u16; MOST_ENTRIES];
    let mut parameters = [0u64; MOST_WORDS];
    let mut numbers = [0u16; MOST_ENTRIES];
    fill_constants(&mut constants);
    fill_rows(&mut parameters);
    fill_numbers(&mut numbers);
    said::label(rt, b"longest")?;
    there_and_back(rt, &constants, &parameters, Some(&numbers))
}

fn there_and_back(
    rt: &impl Print,
    constants: &[u16],
    parameters: &[u64],
    numbers: Option<&[u16]>,
) -> io::Result<()> {
    let mut file = [0u8; LONGEST_FILE];
    let model = LentModel {
        p: LARGEST_PRIME,
        n: MOST_COLUMNS,
        a: MOST_ROWS,
        b: MOST_ROWS,
        constants,
        parameters,
        numbers,
    };
    let length = written(rt, &model, &mut file)?;
    back(rt, said::front(&file, length))
}

fn back(rt: &impl Print, file: &[u8]) -> io::Result<()> {
    let mut constants = [0u16; MOST_ENTRIES];
    let mut parameters = [0u64; MOST_WORDS];
    let mut numbers = [0u16; MOST_ENTRIES];
    let read = read_file(file, &mut constants, &mut parameters, &mut numbers);
    said::label(rt, b"read")?;
    said::sizes(rt, read)?;
    said::end_line(rt)?;
    let Ok(sizes) = read else { return Ok(()) };
    let model = LentModel {
        numbers: sizes.numbered.then_some(&numbers[..]),
        ..sizes.model(&constants, &parameters)
    };
    let mut again = [0u8; LONGEST_FILE];
    said::label(rt, b"written again")?;
    let length = written(rt, &model, &mut again)?;
    let same = check::same(file, said::front(&again, length));
    println!(rt; "same bytes: {}", u8::from(same))?;
    looked_into(rt, file)
}

fn looked_into(rt: &impl Print, file: &[u8]) -> io::Result<()> {
    looked_up(rt, file, MOST_ROWS - 1)?;
    looked_up(rt, file, MOST_ROWS)?;
    said::label(rt, b"last byte missing")?;
    let less = file.len().saturating_sub(1);
    said::refusal(rt, format::judge_file(&file[..less]))?;
    said::end_line(rt)
}

// The refusal, the length and a sum of what is written; the length is given back.
fn written(rt: &impl Print, model: &LentModel<'_>, out: &mut [u8]) -> io::Result<usize> {
    let written = write_file(model, out);
    said::length(rt, written)?;
    let length = written.unwrap_or(0);
    println!(rt; " {}", said::checksum(said::front(out, length)))?;
    Ok(length)
}
