// A file read into lent areas.
ghost use Rattle.std.specs.Prelude.{◌≡◌, ◌*◌, ◌≤◌, ◌<◌, length};
ghost use Rattle.columns.specs.ColumnSets.{row_numbers};
ghost use Rattle.format.specs.Lists.{over};
ghost use Rattle.format.specs.File.Format.{entries};
ghost use Rattle.format.specs.File.Steps.{constants_said, fields_of_row, parameters_said, Put};
ghost use Rattle.loader.specs.FileRead.{SizesOf, RowsFilled, RowsReading, FileRead};

use crate::header::{Sizes, after_fields, read_sizes};
use crate::numbers::{numbers_held, put_numbers};
use columns::ColumnSet;
use format::Refusal;
use format::fields::{said_body, said_rest};

// The model of a file but its parameters' numbers: its constants row after row over the front of their area, its parameter rows over
// the front of theirs.
pub fn read_rows(
    file: &[u8],
    constants: &mut [u16],
    parameters: &mut [u64],
) -> Result<Sizes, Refusal>
    ensures { RowsReading file.now constants.old (row_numbers parameters.old) result constants.new (row_numbers parameters.new) }
{
    let sizes = read_sizes(file)?;
    fill_rows(file, sizes, constants, parameters)?;
    Ok(sizes)
}

// The model of a file; where it is numbered, its numbers too, row after row over the front of their area.
pub fn read_file(
    file: &[u8],
    constants: &mut [u16],
    parameters: &mut [u64],
    numbers: &mut [u16],
) -> Result<Sizes, Refusal>
    ensures { FileRead file.now constants.old (row_numbers parameters.old) numbers.old result constants.new (row_numbers parameters.new) numbers.new }
{
    let sizes = read_sizes(file)?;
    if !numbers_held(sizes, numbers) {
        return Err(Refusal::AreaShort);
    }
    fill_rows(file, sizes, constants, parameters)?;
    if sizes.numbered {
        put_numbers(numbers, file, sizes);
    }
    Ok(sizes)
}

// The rows of an accepted file that has these sizes, where the areas hold them.
fn fill_rows(
    file: &[u8],
    sizes: Sizes,
    constants: &mut [u16],
    parameters: &mut [u64],
) -> Result<(), Refusal>
    requires { SizesOf file.now sizes }
    ensures { RowsFilled file.now constants.old (row_numbers parameters.old) sizes result constants.new (row_numbers parameters.new) }
{
    if constants.len() < sizes.a * sizes.n || columns::rows(parameters) < sizes.b {
        return Err(Refusal::AreaShort);
    }
    // behind the fields of p and of the sizes
    let rows = after_fields(file, 2);
    read_constants(constants, rows, sizes.a);
    let rest = after_fields(rows, sizes.a);
    read_parameters(parameters, rest, sizes.b, fields_of_row(sizes.numbered));
    Ok(())
}

// How many fields a parameter row has: its own, and in a numbered model that of its numbers.
fn fields_of_row(numbered: bool) -> usize
    ensures { result ≡ fields_of_row numbered }
{
    if numbered { 2 } else { 1 }
}

// The constants of a row's body; how many they are.
fn read_entries(out: &mut [u16], body: &[u8]) -> usize
    requires { length (entries body.now) ≤ length out.old }
    ensures { Put (entries body.now) out.old out.new result }
{
    for (i, pair) in body.chunks_exact(2).enumerate() {
        out[i] = u16::from_le_bytes([pair[0], pair[1]]);
    }
    body.len() / 2
}

// The constants of the a rows in front.
fn read_constants(out: &mut [u16], file: &[u8], a: usize)
    requires { length (constants_said a file.now) ≤ length out.old }
    ensures { out.new ≡ over (constants_said a file.now) out.old }
{
    let mut rest = file;
    let mut at = 0;
    for _ in 0..a {
        at += read_entries(&mut out[at..], said_body(rest));
        rest = said_rest(rest);
    }
}

// The b parameter rows in front, each of which has so many fields.
fn read_parameters(out: &mut [u64], file: &[u8], b: usize, step: usize)
    requires { b ≤ length (row_numbers out.old) }
    ensures { row_numbers out.new ≡ over (parameters_said step b file.now) (row_numbers out.old) }
{
    let mut rest = file;
    for r in 0..b {
        columns::put_row(out, r, ColumnSet::of_bytes(said_body(rest)));
        rest = after_fields(rest, step);
    }
}
