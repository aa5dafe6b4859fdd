// The mixed bench models, S7 to S9, and S12 at several primes; and the model where a dropped constant spoils the short set.
use crate::report::{answer_line, line};
use models::LentModel;
use std::io;

pub const USUAL: u32 = 1021;

// Document 000, Example 5.1, where 3 stands for minus one.
const S12_CONSTANTS: [u16; 49] = [
    0, 1, 0, 1, 3, 0, 2, 0, 0, 1, 1, 1, 2, 0, 0, 0, 0, 0, 0, 0, 0, 0, 1, 1, 1, 0, 1, 1, 1, 3, 0, 0,
    1, 1, 3, 0, 0, 1, 1, 1, 2, 0, 0, 0, 0, 1, 0, 1, 1,
];

// Areas of parameter rows have two words a row.
const S12_PARAMETERS: [u64; 14] = [5, 0, 2, 0, 12, 0, 0, 0, 0, 0, 0, 0, 0, 0];

fn run_small(rt: &impl Print) -> io::Result<()> {
    let ones = [1u16, 1, 1, 1];
    let none = [0u64; 4];
    let corner = [1u64, 0, 0, 0];
    let s9 = LentModel::unnumbered(USUAL, 2, 2, 2, &ones, &corner);
    let s7 = LentModel {
        n: 1,
        a: 1,
        b: 1,
        ..s9
    };
    let s8 = LentModel::unnumbered(USUAL, 2, 2, 2, &ones, &none);
    line(rt, b"S7", &s7)?;
    line(rt, b"S8", &s8)?;
    line(rt, b"S9", &s9)?;
    let first = [1u16, 0];
    let both = [3u64, 0];
    let beside = LentModel::unnumbered(USUAL, 2, 1, 1, &first, &both);
    line(rt, b"constant beside a parameter", &beside)
}

// The residue that a number of the table stands for.
fn residue_for(x: u16, p: u32) -> u16 {
    let residue = if x == 3 {
        residue::sub(p, 0, 1)
    } else {
        residue::add(p, u32::from(x), 0)
    };
    (residue % 65536) as u16
}

fn run_s12(rt: &impl Print, p: u32) -> io::Result<()> {
    let constants = S12_CONSTANTS.map(|x| residue_for(x, p));
    print!(rt; "S12 at {p}")?;
    let model = LentModel::unnumbered(p, 7, 7, 7, &constants, &S12_PARAMETERS);
    answer_line(rt, &model)
}

pub fn run_all(rt: &impl Print) -> io::Result<()> {
    run_small(rt)?;
    for p in [2, 3, 5, 7, USUAL, 65521] {
        run_s12(rt, p)?;
    }
    Ok(())
}
