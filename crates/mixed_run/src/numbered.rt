// Numbered parameters: the answer is that of the model without its numbers, and a number met a second time is refused, before 10.
use crate::bench::USUAL;
use crate::report::line;
use models::LentModel;
use std::io;

// The model with these numbers.
fn numbered_line(
    rt: &impl Print,
    name: &[u8],
    model: LentModel<'_>,
    numbers: &[u16],
) -> io::Result<()> {
    let numbers = Some(numbers);
    line(rt, name, &LentModel { numbers, ..model })
}

// Ones, with parameters at both places of row 0 and at column 1 of row 1; the entry without a parameter has the number of another.
fn run_answers(rt: &impl Print) -> io::Result<()> {
    let ones = [1u16, 1, 1, 1];
    let rows = [3u64, 0, 2, 0];
    let model = LentModel::unnumbered(USUAL, 2, 2, 2, &ones, &rows);
    line(rt, b"unnumbered", &model)?;
    let apart = [7u16, 8, 7, 9];
    numbered_line(rt, b"numbered", model, &apart)?;
    let twice = [7u16, 8, 0, 7];
    numbered_line(rt, b"a number twice", model, &twice)
}

// With a 1 and b 2; each line mends the fault that the line before is refused for.
fn run_faults(rt: &impl Print) -> io::Result<()> {
    let constants = [1u16, 0];
    let beyond = [4u64, 0, 3, 0];
    let rows = [1u64, 0, 3, 0];
    let twice = [7u16, 8, 8, 8];
    let apart = [7u16, 8, 8, 9];
    let more = LentModel::unnumbered(USUAL, 2, 1, 2, &constants, &beyond);
    numbered_line(rt, b"faults 8 6 13 10", more, &twice[..3])?;
    numbered_line(rt, b"faults 6 13 10", more, &twice)?;
    let two = LentModel::unnumbered(USUAL, 2, 1, 2, &constants, &rows);
    numbered_line(rt, b"faults 13 10", two, &twice)?;
    numbered_line(rt, b"fault 10", two, &apart)?;
    numbered_line(rt, b"no fault", LentModel { b: 1, ..two }, &apart)
}

pub fn run_all(rt: &impl Print) -> io::Result<()> {
    run_answers(rt)?;
    run_faults(rt)
}
