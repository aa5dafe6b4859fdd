// Numbered parameters: the answer is that of the model without its numbers, and a number met a second time is refused.
use crate::bench::{S4_CONSTANTS, S4_PARAMETERS, USUAL};
use crate::report::line;
use models::LentModel;
use std::io;

// The model with these numbers.
fn numbered_line(
    rt: &impl Print,
    name: &[u8],
    model: LentModel<'_>,
    numbers: &[u16],
) -> io::Result<()> {
    let numbers = Some(numbers);
    line(rt, name, &LentModel { numbers, ..model })
}

// S4, with a row of five numbers for each parameter row; all entries without a parameter have the same number.
fn run_s4(rt: &impl Print) -> io::Result<()> {
    let s4 = LentModel::unnumbered(USUAL, 5, 2, 2, &S4_CONSTANTS, &S4_PARAMETERS);
    line(rt, b"unnumbered", &s4)?;
    let apart = [30u16, 0, 0, 0, 31, 0, 32, 0, 0, 65535];
    numbered_line(rt, b"numbered", s4, &apart)?;
    numbered_line(rt, b"numbers short by one", s4, &apart[..9])
}

fn run_twice(rt: &impl Print) -> io::Result<()> {
    let s4 = LentModel::unnumbered(USUAL, 5, 2, 2, &S4_CONSTANTS, &S4_PARAMETERS);
    let in_a_row = [30u16, 0, 0, 0, 30, 0, 32, 0, 0, 33];
    numbered_line(rt, b"twice in a row", s4, &in_a_row)?;
    let in_two = [30u16, 0, 0, 0, 31, 0, 32, 0, 0, 30];
    numbered_line(rt, b"twice in two rows", s4, &in_two)?;
    let elsewhere = [30u16, 30, 30, 30, 31, 30, 32, 30, 30, 33];
    numbered_line(rt, b"twice without a parameter", s4, &elsewhere)
}

// Each line mends the fault that the line before is refused for.
fn run_faults(rt: &impl Print) -> io::Result<()> {
    let constants = [1u16, 1021];
    let sound = [1u16, 1020];
    let parameters = [7u64, 0];
    let both = [3u64, 0];
    let twice = [5u16, 5];
    let apart = [5u16, 6];
    let three = LentModel::unnumbered(USUAL, 2, 1, 1, &constants, &parameters);
    numbered_line(rt, b"faults 8 5 6 13", three, &twice[..1])?;
    numbered_line(rt, b"faults 5 6 13", three, &twice)?;
    let two = LentModel::unnumbered(USUAL, 2, 1, 1, &sound, &parameters);
    numbered_line(rt, b"faults 6 13", two, &twice)?;
    let one = LentModel::unnumbered(USUAL, 2, 1, 1, &sound, &both);
    numbered_line(rt, b"fault 13", one, &twice)?;
    numbered_line(rt, b"no fault", one, &apart)
}

pub fn run_all(rt: &impl Print) -> io::Result<()> {
    run_s4(rt)?;
    run_twice(rt)?;
    run_faults(rt)
}
