// The fields of a file, each written into what is left of the caller's area. Each function gives how many bytes it wrote, and the next
// field goes behind them.
ghost use Rattle.std.specs.Prelude.{◌≡◌, true, ◌*◌, ◌≤◌, length, take};
ghost use mathlib.Core.List.{[], ◌∷◌, flat_map};
ghost use Rattle.columns.specs.Columns.{within};
ghost use Rattle.columns.specs.Bytes.{bytes_of};
ghost use Rattle.columns.specs.ColumnSets.{whole, row_numbers};
ghost use Rattle.limits.specs.Limits.{most_columns, most_rows};
ghost use Rattle.models.specs.Lent.{lent_numbers};
ghost use Rattle.format.specs.Lists.{All, rows_of};
ghost use Rattle.format.specs.Refusals.{numbers_room};
ghost use Rattle.format.specs.File.Piece.{field_bytes};
ghost use Rattle.format.specs.File.Format.{prime_tag, sizes_tag, end_tag};
ghost use Rattle.format.specs.File.Steps.{constant_bytes, parameter_bytes, number_bytes, rows_bytes, Put};
ghost use Rattle.writer.specs.Putting.{AcceptedModel, file_of};

use crate::pen::Pen;
use columns::ColumnSet;
use format::fields::{
    CONSTANT_TAG, END_TAG, NUMBER_TAG, PARAMETER_TAG, PRIME_BYTES, PRIME_TAG, SIZES_BYTES,
    SIZES_TAG, parameter_size,
};
use models::LentModel;

// The file of an accepted model.
pub fn put_file(out: &mut [u8], model: &LentModel<'_>) -> usize
    requires { AcceptedModel model.now × (length (file_of model.now) ≤ length out.old) }
    ensures { Put (file_of model.now) out.old out.new result }
{
    let LentModel {
        p,
        n,
        a,
        b,
        constants,
        parameters,
        numbers,
    } = *model;
    let mut at = put_prime(out, p as u16);
    at += put_sizes(&mut out[at..], n as u8, a as u8, b as u8);
    at += put_constant_rows(&mut out[at..], constants, n, a);
    at += put_parameter_rows(&mut out[at..], parameters, numbers, n, b);
    at += put_end(&mut out[at..]);
    at
}

fn put_prime(out: &mut [u8], p: u16) -> usize
    requires { length (field_bytes prime_tag 2 (bytes_of 2 p)) ≤ length out.old }
    ensures { Put (field_bytes prime_tag 2 (bytes_of 2 p)) out.old out.new result }
{
    let mut pen = Pen::new(out);
    pen.head(PRIME_TAG, PRIME_BYTES);
    pen.put(&p.to_le_bytes());
    pen.at
}

fn put_sizes(out: &mut [u8], n: u8, a: u8, b: u8) -> usize
    requires { length (field_bytes sizes_tag 3 (n ∷ a ∷ b ∷ [])) ≤ length out.old }
    ensures { Put (field_bytes sizes_tag 3 (n ∷ a ∷ b ∷ [])) out.old out.new result }
{
    let mut pen = Pen::new(out);
    pen.head(SIZES_TAG, SIZES_BYTES);
    pen.put(&[n, a, b]);
    pen.at
}

fn put_constant_row(out: &mut [u8], row: &[u16]) -> usize
    requires { (length row.now ≤ most_columns) × (length (constant_bytes (length row.now) row.now) ≤ length out.old) }
    ensures { Put (constant_bytes (length row.now) row.now) out.old out.new result }
{
    let mut pen = Pen::new(out);
    pen.head(CONSTANT_TAG, 2 * row.len());
    pen.entries(row);
    pen.at
}

// The first a rows of n constants.
fn put_constant_rows(out: &mut [u8], constants: &[u16], n: usize, a: usize) -> usize
    requires { (1 ≤ n) × (n ≤ most_columns) × (a * n ≤ length constants.now) × (length (flat_map (constant_bytes n) (rows_of n a constants.now)) ≤ length out.old) }
    ensures { Put (flat_map (constant_bytes n) (rows_of n a constants.now)) out.old out.new result }
{
    let mut at = 0;
    for row in constants.chunks_exact(n).take(a) {
        at += put_constant_row(&mut out[at..], row);
    }
    at
}

fn put_parameter_row(out: &mut [u8], set: ColumnSet, n: usize) -> usize
    requires { length (parameter_bytes n (whole set)) ≤ length out.old }
    ensures { Put (parameter_bytes n (whole set)) out.old out.new result }
{
    let size = parameter_size(n);
    let mut pen = Pen::new(out);
    pen.head(PARAMETER_TAG, size);
    pen.set(set, size);
    pen.at
}

// The numbers of a row's parameters, by ascending column: the entries that stand there in a row of n.
fn put_number_row(out: &mut [u8], set: ColumnSet, row: &[u16]) -> usize
    requires { (length row.now ≤ most_columns) × (within (length row.now) (whole set) ≡ true) × (length (number_bytes (length row.now) (whole set) row.now) ≤ length out.old) }
    ensures { Put (number_bytes (length row.now) (whole set) row.now) out.old out.new result }
{
    let mut pen = Pen::new(out);
    pen.head(NUMBER_TAG, 2 * set.size());
    for c in set {
        pen.put(&row[c].to_le_bytes());
    }
    pen.at
}

// The first b parameter rows, each with its numbers behind it where there are any.
fn put_parameter_rows(
    out: &mut [u8],
    parameters: &[u64],
    numbers: Option<&[u16]>,
    n: usize,
    b: usize,
) -> usize
    requires { (n ≤ most_columns) × (b ≤ most_rows) × (b ≤ length (row_numbers parameters.now)) × All (λ w. within n w ≡ true) (take b (row_numbers parameters.now)) × (numbers_room (b * n) (lent_numbers numbers) ≡ true) × (length (rows_bytes n (take b (row_numbers parameters.now)) (lent_numbers numbers)) ≤ length out.old) }
    ensures { Put (rows_bytes n (take b (row_numbers parameters.now)) (lent_numbers numbers.entry)) out.old out.new result }
{
    let mut at = 0;
    for r in 0..b {
        let set = columns::row(parameters, r);
        at += put_parameter_row(&mut out[at..], set, n);
        if let Some(lent) = numbers {
            at += put_number_row(&mut out[at..], set, &lent[r * n..(r + 1) * n]);
        }
    }
    at
}

fn put_end(out: &mut [u8]) -> usize
    requires { length (field_bytes end_tag 0 []) ≤ length out.old }
    ensures { Put (field_bytes end_tag 0 []) out.old out.new result }
{
    let mut pen = Pen::new(out);
    pen.head(END_TAG, 0);
    pen.at
}
