// The edges of a mixed question: no rows, as many columns as there may be, and that 10 comes after every other number.
use crate::bench::USUAL;
use crate::report::{answer_line, line};
use columns::{ColumnSet, MOST_WORDS};
use limits::MOST_ROWS;
use models::LentModel;
use std::io;

// Each row has a parameter at column 0.
fn fill_rows(area: &mut [u64]) {
    for r in 0..MOST_ROWS {
        columns::put_row(area, r, ColumnSet::below(1));
    }
}

fn run_sizes(rt: &impl Print) -> io::Result<()> {
    let constants = [1u16; 2304];
    let mut parameters = [0u64; MOST_WORDS];
    fill_rows(&mut parameters);
    let sizes = [
        (0, 1),
        (0, 96),
        (1, 63),
        (1, 64),
        (1, 95),
        (1, 96),
        (64, 1),
        (95, 1),
        (96, 1),
        (48, 48),
    ];
    for (m, n) in sizes {
        print!(rt; "m {m}, n {n}")?;
        let model = LentModel::unnumbered(USUAL, n, m, m, &constants, &parameters);
        answer_line(rt, &model)?;
    }
    let uneven = LentModel::unnumbered(USUAL, 1, 1, 2, &constants, &parameters);
    line(rt, b"a 1, b 2", &uneven)?;
    line(rt, b"a 1, b 0", &LentModel { b: 0, ..uneven })
}

// With a 1 and b 2; each line mends the fault that the line before is refused for.
fn run_faults(rt: &impl Print) -> io::Result<()> {
    let constants = [1u16, 1021, 5];
    let parameters = [4u64, 0, 1, 0];
    let sound = [1u16, 1020, 5];
    let six = LentModel::unnumbered(1, 0, 97, 2, &constants, &parameters[..3]);
    line(rt, b"faults 3 4 8 5 6 10", &six)?;
    let five = LentModel { p: USUAL, ..six };
    line(rt, b"faults 4 8 5 6 10", &five)?;
    line(rt, b"faults 8 5 6 10", &LentModel { n: 2, a: 1, ..five })?;
    let three = LentModel::unnumbered(USUAL, 2, 1, 2, &constants, &parameters);
    line(rt, b"faults 5 6 10", &three)?;
    let two = LentModel::unnumbered(USUAL, 2, 1, 2, &sound, &parameters);
    line(rt, b"faults 6 10", &two)?;
    let one = LentModel { n: 3, ..two };
    line(rt, b"fault 10", &one)?;
    line(rt, b"no fault", &LentModel { b: 1, ..one })
}

pub fn run_all(rt: &impl Print) -> io::Result<()> {
    run_sizes(rt)?;
    run_faults(rt)
}
