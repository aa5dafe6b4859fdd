// Areas that are short by one, just long enough, and longer: what the calls give, and what the areas then hold.
ghost use Rattle.std.specs.Prelude.{◌≤◌};

use crate::{document_model, said, sample};
use loader::read_file;
use models::LentModel;
use std::io;
use writer::write_file;

// The document's file has two constants and one parameter row, which an area holds in two words.
pub fn short(rt: &impl Print) -> io::Result<()> {
    let file = sample();
    let mut constants = [7u16; 3];
    let mut parameters = [7u64; 4];
    said::label(rt, b"constants short")?;
    read_into(rt, &file, &mut constants, 1, &mut parameters, 2)?;
    said::label(rt, b"parameters short")?;
    read_into(rt, &file, &mut constants, 2, &mut parameters, 1)?;
    said::label(rt, b"file refused")?;
    let part = said::front(&file, 31);
    read_into(rt, part, &mut constants, 3, &mut parameters, 4)
}

pub fn long_enough(rt: &impl Print) -> io::Result<()> {
    let file = sample();
    let mut constants = [7u16; 3];
    let mut parameters = [7u64; 4];
    said::label(rt, b"just long enough")?;
    read_into(rt, &file, &mut constants, 2, &mut parameters, 2)?;
    let mut others = [9u16; 3];
    let mut more = [9u64; 4];
    said::label(rt, b"longer")?;
    read_into(rt, &file, &mut others, 3, &mut more, 4)
}

// The file, which is unnumbered, is read into the first k constants, the first j words of parameter rows and no number; both areas are
// printed whole.
fn read_into(
    rt: &impl Print,
    file: &[u8],
    constants: &mut [u16; 3],
    k: usize,
    parameters: &mut [u64; 4],
    j: usize,
) -> io::Result<()>
    requires { (k ≤ 3) × (j ≤ 4) }
{
    let read = read_file(file, &mut constants[..k], &mut parameters[..j], &mut []);
    said::sizes(rt, read)?;
    said::numbers(rt, &constants[..])?;
    said::numbers(rt, &parameters[..])?;
    said::end_line(rt)
}

pub fn written(rt: &impl Print) -> io::Result<()> {
    let mut out = [7u8; 33];
    said::label(rt, b"out short")?;
    write_into(rt, &mut out, 31, 1021)?;
    said::label(rt, b"model refused")?;
    write_into(rt, &mut out, 33, 1022)?;
    said::label(rt, b"out just long enough")?;
    write_into(rt, &mut out, 32, 1021)?;
    let mut other = [9u8; 33];
    said::label(rt, b"out longer")?;
    write_into(rt, &mut other, 33, 1021)
}

// The document's model, with p, is written into the first k bytes; the area is printed whole.
fn write_into(rt: &impl Print, out: &mut [u8; 33], k: usize, p: u32) -> io::Result<()>
    requires { k ≤ 33 }
{
    let model = LentModel {
        p,
        ..document_model()
    };
    said::length(rt, write_file(&model, &mut out[..k]))?;
    said::numbers(rt, &out[..])?;
    said::end_line(rt)
}
