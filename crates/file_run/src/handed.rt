// Models handed over without numbers, judged.
use crate::{document_model, said};
use format::judge_model;
use models::LentModel;
use std::io;

// The document's model, with these sizes.
fn judged(rt: &impl Print, p: u32, n: usize, a: usize, b: usize) -> io::Result<()> {
    let model = LentModel {
        p,
        n,
        a,
        b,
        ..document_model()
    };
    said::refusal(rt, judge_model(&model))
}

// A model of one constant and one parameter row, at n 2.
fn with_contents(rt: &impl Print, p: u32, constant: u16, set: u64) -> io::Result<()> {
    let constants = [0u16, constant];
    let parameters = [set, 0];
    let model = LentModel::unnumbered(p, 2, 1, 1, &constants, &parameters);
    said::refusal(rt, judge_model(&model))
}

fn accepted(rt: &impl Print) -> io::Result<()> {
    said::label(rt, b"accepted")?;
    judged(rt, 1021, 2, 1, 1)?;
    judged(rt, 2, 2, 1, 1)?;
    judged(rt, 65521, 2, 1, 1)?;
    judged(rt, 1021, 2, 0, 0)?;
    said::end_line(rt)
}

fn primes(rt: &impl Print) -> io::Result<()> {
    said::label(rt, b"p")?;
    judged(rt, 0, 0, 97, 97)?;
    judged(rt, 1, 2, 1, 1)?;
    judged(rt, 4, 2, 1, 1)?;
    judged(rt, 65535, 2, 1, 1)?;
    judged(rt, 65537, 2, 1, 1)?;
    said::end_line(rt)
}

fn sizes(rt: &impl Print) -> io::Result<()> {
    said::label(rt, b"sizes")?;
    judged(rt, 1021, 0, 1, 1)?;
    judged(rt, 1021, 97, 1, 1)?;
    judged(rt, 1021, 2, 97, 1)?;
    judged(rt, 1021, 2, 1, 97)?;
    said::end_line(rt)
}

fn areas(rt: &impl Print) -> io::Result<()> {
    said::label(rt, b"areas")?;
    judged(rt, 1021, 3, 1, 1)?;
    judged(rt, 1021, 2, 2, 1)?;
    judged(rt, 1021, 2, 1, 2)?;
    judged(rt, 1021, 96, 96, 96)?;
    said::end_line(rt)
}

fn contents(rt: &impl Print) -> io::Result<()> {
    said::label(rt, b"contents")?;
    with_contents(rt, 1021, 1020, 3)?;
    with_contents(rt, 1021, 1021, 2)?;
    with_contents(rt, 1021, 1020, 4)?;
    with_contents(rt, 1021, 65535, 4)?;
    with_contents(rt, 65521, 65520, 2)?;
    with_contents(rt, 65521, 65521, 2)?;
    said::end_line(rt)
}

pub fn handed_over(rt: &impl Print) -> io::Result<()> {
    accepted(rt)?;
    primes(rt)?;
    sizes(rt)?;
    areas(rt)?;
    contents(rt)
}
