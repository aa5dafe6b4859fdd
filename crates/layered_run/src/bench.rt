// The layered bench models, S1 to S6, S10 and S11; four columns with several numbers of rows; and S4 with its columns in other orders.
ghost use Rattle.std.specs.Prelude.{◌<◌};

use crate::report::{answer_line, line};
use models::LentModel;
use std::io;

pub const USUAL: u32 = 1021;

pub const S4_CONSTANTS: [u16; 10] = [1, 1, 1, 1, 0, 0, 2, 1, 1, 0];

// Areas of parameter rows have two words a row.
pub const S4_PARAMETERS: [u64; 4] = [17, 0, 18, 0];

fn run_without_constants(rt: &impl Print) -> io::Result<()> {
    let twice = [1u64, 0, 1, 0];
    let s1 = LentModel::unnumbered(USUAL, 1, 0, 0, &[], &[]);
    let s10 = LentModel::unnumbered(USUAL, 2, 0, 2, &[], &twice);
    line(rt, b"S1", &s1)?;
    line(rt, b"S10", &s10)?;
    line(rt, b"S11", &LentModel { n: 1, ..s10 })
}

fn run_without_parameters(rt: &impl Print) -> io::Result<()> {
    let none = [0u64; 1];
    let same = [1u16, 1, 1, 1];
    let turned = [1u16, 2, 2, 1];
    let s3 = LentModel::unnumbered(USUAL, 2, 2, 0, &same, &none[..0]);
    let s6 = LentModel::unnumbered(USUAL, 2, 2, 0, &turned, &none[..0]);
    line(rt, b"S3", &s3)?;
    line(rt, b"S5", &LentModel { p: 3, ..s6 })?;
    line(rt, b"S6", &s6)
}

fn run_with_both(rt: &impl Print) -> io::Result<()> {
    let balance = [1u16, 0];
    let second = [2u64, 0];
    let s2 = LentModel::unnumbered(USUAL, 2, 1, 1, &balance, &second);
    let s4 = LentModel::unnumbered(USUAL, 5, 2, 2, &S4_CONSTANTS, &S4_PARAMETERS);
    line(rt, b"S2", &s2)?;
    line(rt, b"S4", &s4)
}

// Four unknowns: the first rows of the unit matrix, and laws that have all unknowns, or the first alone.
fn run_rows(rt: &impl Print) -> io::Result<()> {
    let unit = [1u16, 0, 0, 0, 0, 1, 0, 0, 0, 0, 1, 0, 0, 0, 0, 1];
    let wide = [15u64, 0, 15, 0];
    let narrow = [1u64, 0, 1, 0];
    let model = LentModel::unnumbered(USUAL, 4, 1, 2, &unit, &wide);
    line(rt, b"3 equations", &model)?;
    line(rt, b"4 equations", &LentModel { a: 2, ..model })?;
    line(rt, b"5 equations", &LentModel { a: 3, ..model })?;
    let few = LentModel::unnumbered(USUAL, 4, 3, 2, &unit, &narrow);
    line(rt, b"5 equations, rank 3", &few)
}

pub fn run_all(rt: &impl Print) -> io::Result<()> {
    run_without_constants(rt)?;
    run_without_parameters(rt)?;
    run_with_both(rt)?;
    run_rows(rt)
}

// The column of S4 that stands at c: from start on in steps, around.
fn source(c: usize, step: usize, start: usize) -> usize
    ensures { result < 5 }
{
    start.wrapping_add(c.wrapping_mul(step)) % 5
}

fn moved_row(row: u64, step: usize, start: usize) -> u64 {
    let mut set = 0;
    for c in 0..5 {
        if (row >> source(c, step, start)) % 2 == 1 {
            set |= 1u64 << c;
        }
    }
    set
}

// S4 where column c is its column start + c * step, around.
fn run_order(rt: &impl Print, step: usize, start: usize) -> io::Result<()> {
    let mut constants = [0u16; 10];
    for c in 0..5 {
        let from = source(c, step, start);
        constants[c] = S4_CONSTANTS[from];
        constants[5 + c] = S4_CONSTANTS[5 + from];
    }
    let parameters = [
        moved_row(S4_PARAMETERS[0], step, start),
        0,
        moved_row(S4_PARAMETERS[2], step, start),
        0,
    ];
    print!(rt; "S4 in order {step} {start}")?;
    let model = LentModel::unnumbered(USUAL, 5, 2, 2, &constants, &parameters);
    answer_line(rt, &model)
}

// Every order of that kind: 20 of the 120.
pub fn run_orders(rt: &impl Print) -> io::Result<()> {
    for step in 1..5 {
        for start in 0..5 {
            run_order(rt, step, start)?;
        }
    }
    Ok(())
}
