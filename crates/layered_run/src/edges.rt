// The edges of a model handed over: each limit from both sides, and the order of judgement with several faults at once.
use crate::bench::USUAL;
use crate::report::{answer_line, line};
use models::LentModel;
use std::io;

fn run_sizes(rt: &impl Print) -> io::Result<()> {
    let constants = [0u16; 9409];
    let parameters = [0u64; 194];
    let model = LentModel::unnumbered(USUAL, 96, 0, 0, &constants, &parameters);
    line(rt, b"n 64", &LentModel { n: 64, ..model })?;
    line(rt, b"n 65", &LentModel { n: 65, ..model })?;
    line(rt, b"n 96", &model)?;
    let largest = LentModel {
        a: 96,
        b: 96,
        ..model
    };
    line(rt, b"n 96, a 96, b 96", &largest)?;
    line(rt, b"n 0", &LentModel { n: 0, ..model })?;
    line(rt, b"n 97", &LentModel { n: 97, ..model })?;
    let narrow = LentModel { n: 1, ..model };
    line(rt, b"a 97", &LentModel { a: 97, ..narrow })?;
    line(rt, b"b 97", &LentModel { b: 97, ..narrow })
}

fn run_primes(rt: &impl Print) -> io::Result<()> {
    let constants = [1u16, 1];
    let parameters = [2u64, 0];
    for p in [2, 65521, 0, 1, 4, 65535, 65537, 4294967291] {
        print!(rt; "p {p}")?;
        let model = LentModel::unnumbered(p, 2, 1, 1, &constants, &parameters);
        answer_line(rt, &model)?;
    }
    Ok(())
}

fn run_constants(rt: &impl Print) -> io::Result<()> {
    let none = [0u64; 1];
    let usual = [0u16, 1020, 1021];
    let model = LentModel::unnumbered(USUAL, 2, 1, 0, &usual, &none);
    line(rt, b"constant p - 1", &model)?;
    line(rt, b"constant p", &LentModel { n: 3, ..model })?;
    let bits = [1u16, 2];
    let least = LentModel::unnumbered(2, 1, 1, 0, &bits, &none);
    line(rt, b"constant 1 at p 2", &least)?;
    line(rt, b"constant p at p 2", &LentModel { a: 2, ..least })?;
    let last = [65520u16, 65521];
    let largest = LentModel::unnumbered(65521, 1, 1, 0, &last, &none);
    line(rt, b"constant 65520 at p 65521", &largest)?;
    line(rt, b"constant p at p 65521", &LentModel { n: 2, ..largest })
}

// The model of no constant row and of the first b parameter rows.
fn parameters_line(
    rt: &impl Print,
    name: &[u8],
    n: usize,
    b: usize,
    rows: &[u64],
) -> io::Result<()> {
    let none = [0u16; 1];
    line(
        rt,
        name,
        &LentModel::unnumbered(USUAL, n, 0, b, &none, rows),
    )
}

fn run_parameters(rt: &impl Print) -> io::Result<()> {
    let rows = [16u64, 0, 32, 0, 9223372036854775808, 0];
    parameters_line(rt, b"parameter at column n - 1", 5, 1, &rows)?;
    parameters_line(rt, b"parameter at column n", 5, 2, &rows)?;
    parameters_line(rt, b"parameter at column 63 of 64", 64, 3, &rows)?;
    parameters_line(rt, b"parameter at column 63 of 63", 63, 3, &rows)?;
    let high = [0u64, 1, 1, 2147483648];
    parameters_line(rt, b"parameter at column 64 of 65", 65, 1, &high)?;
    parameters_line(rt, b"parameter at column 64 of 64", 64, 1, &high)?;
    parameters_line(rt, b"parameter at column 95 of 96", 96, 2, &high)?;
    parameters_line(rt, b"parameter at column 95 of 95", 95, 2, &high)
}

fn run_areas(rt: &impl Print) -> io::Result<()> {
    let constants = [3u16; 6];
    let parameters = [7u64, 0, 7, 0];
    let held = LentModel::unnumbered(USUAL, 3, 2, 2, &constants, &parameters);
    line(rt, b"areas that just hold", &held)?;
    let few = LentModel::unnumbered(USUAL, 3, 2, 2, &constants[..5], &parameters);
    line(rt, b"constants short by one", &few)?;
    let short = LentModel::unnumbered(USUAL, 3, 2, 2, &constants, &parameters[..3]);
    line(rt, b"parameters short by one", &short)
}

// Each line mends the fault that the line before is refused for.
fn run_faults(rt: &impl Print) -> io::Result<()> {
    let constants = [1u16, 1021, 5];
    let parameters = [4u64, 0];
    let sound = [1u16, 1020, 5];
    let five = LentModel::unnumbered(1, 0, 97, 2, &constants, &parameters);
    line(rt, b"faults 3 4 8 5 6", &five)?;
    let four = LentModel { p: USUAL, ..five };
    line(rt, b"faults 4 8 5 6", &four)?;
    let three = LentModel { n: 2, a: 1, ..four };
    line(rt, b"faults 8 5 6", &three)?;
    line(rt, b"faults 5 6", &LentModel { b: 1, ..three })?;
    let one = LentModel::unnumbered(USUAL, 2, 1, 1, &sound, &parameters);
    line(rt, b"fault 6", &one)?;
    line(rt, b"no fault", &LentModel { n: 3, ..one })
}

pub fn run_all(rt: &impl Print) -> io::Result<()> {
    run_sizes(rt)?;
    run_primes(rt)?;
    run_constants(rt)?;
    run_parameters(rt)?;
    run_areas(rt)?;
    run_faults(rt)
}
