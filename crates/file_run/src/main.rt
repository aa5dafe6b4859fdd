// Runs the calls on files and models at the edges that documents 01 and 02 (E4) name and prints what they give. The stored output
// is computed apart from this program.
#![tactic(auto)]

ghost use Rattle.std.specs.Prelude.{◌≤◌};

mod areas;
mod handed;
mod longest;
mod numbered;
mod rows;
mod said;

use format::judge_file;
use models::LentModel;
use said::{end_line, label, refusal};
use std::io;
use writer::write_file;

// The file of document 01: p 1,021, n 2, one constant row 1 0, one parameter row {1}.
pub fn sample() -> [u8; 32] {
    [
        0x01, 0x02, 0x00, 0xFD, 0x03, 0x02, 0x03, 0x00, 0x02, 0x01, 0x01, 0x03, 0x04, 0x00, 0x01,
        0x00, 0x00, 0x00, 0x04, 0x08, 0x00, 0x02, 0x00, 0x00, 0x00, 0x00, 0x00, 0x00, 0x00, 0x05,
        0x00, 0x00,
    ]
}

static CONSTANTS: [u16; 2] = [1, 0];

static PARAMETERS: [u64; 2] = [2, 0];

// The model of that file.
pub fn document_model() -> LentModel<'static> {
    LentModel::unnumbered(1021, 2, 1, 1, &CONSTANTS, &PARAMETERS)
}

// The refusals of every part that starts the file.
pub fn prefixes(rt: &impl Print, file: &[u8]) -> io::Result<()> {
    label(rt, b"prefixes")?;
    for k in 0..file.len() {
        refusal(rt, judge_file(&file[..k]))?;
    }
    end_line(rt)
}

// The refusals of the file with one more at each byte in turn, modulo 256.
pub fn changed(rt: &impl Print, file: &mut [u8]) -> io::Result<()> {
    label(rt, b"changed")?;
    for i in 0..file.len() {
        let old = file[i];
        file[i] = old.wrapping_add(1);
        refusal(rt, judge_file(file))?;
        file[i] = old;
    }
    end_line(rt)
}

// The refusal of the document's file with two bytes changed.
fn with_bytes(rt: &impl Print, at: usize, pair: [u8; 2]) -> io::Result<()>
    requires { at ≤ 30 }
{
    let mut file = sample();
    file[at..at + 2].copy_from_slice(&pair);
    refusal(rt, judge_file(&file))
}

fn primes(rt: &impl Print) -> io::Result<()> {
    label(rt, b"p 1 65535 4 2 65521")?;
    for p in [1u16, 65535, 4, 2, 65521] {
        with_bytes(rt, 3, p.to_le_bytes())?;
    }
    end_line(rt)
}

fn sizes(rt: &impl Print) -> io::Result<()> {
    label(rt, b"n 0 97, a 97, b 97")?;
    with_bytes(rt, 8, [0, 1])?;
    with_bytes(rt, 8, [97, 1])?;
    with_bytes(rt, 9, [97, 1])?;
    with_bytes(rt, 10, [97, 3])?;
    end_line(rt)
}

fn contents(rt: &impl Print) -> io::Result<()> {
    label(rt, b"constant 1020 1021")?;
    with_bytes(rt, 14, [0xFC, 0x03])?;
    with_bytes(rt, 14, [0xFD, 0x03])?;
    end_line(rt)?;
    label(rt, b"parameter at column n")?;
    with_bytes(rt, 21, [4, 0])?;
    end_line(rt)
}

// The document's model, written into an area with a byte more than it needs: the bytes before the last are the document's file.
fn one_byte_more(rt: &impl Print) -> io::Result<()> {
    let file = sample();
    let mut out = [0u8; 33];
    let written = write_file(&document_model(), &mut out);
    label(rt, b"written")?;
    said::length(rt, written)?;
    end_line(rt)?;
    println!(rt;
        "same bytes: {}",
        u8::from(check::same(&file, said::front(&out, 32)))
    )?;
    label(rt, b"one byte more")?;
    refusal(rt, judge_file(&out))?;
    end_line(rt)?;
    label(rt, b"empty")?;
    refusal(rt, judge_file(&[]))?;
    end_line(rt)
}

// The document's file, its prefixes, and one byte changed in it at a time.
fn document_file(rt: &impl Print) -> io::Result<()> {
    let mut file = sample();
    label(rt, b"file")?;
    refusal(rt, judge_file(&file))?;
    end_line(rt)?;
    prefixes(rt, &file)?;
    changed(rt, &mut file)
}

fn rows_of_document(rt: &impl Print) -> io::Result<()> {
    let file = sample();
    rows::looked_up(rt, &file, 0)?;
    rows::looked_up(rt, &file, 1)
}

fn main(rt: HostRuntime) -> io::Result<()> {
    document_file(&rt)?;
    primes(&rt)?;
    sizes(&rt)?;
    contents(&rt)?;
    one_byte_more(&rt)?;
    areas::short(&rt)?;
    areas::long_enough(&rt)?;
    areas::written(&rt)?;
    rows_of_document(&rt)?;
    handed::handed_over(&rt)?;
    numbered::small(&rt)?;
    longest::unnumbered(&rt)?;
    longest::numbered(&rt)
}
