// The numbers of a file's parameters, read into a lent area: n entries for each parameter row, with 0 where the row has no parameter.
ghost use Rattle.std.specs.Prelude.{◌≡◌, ◌+◌, ◌*◌, ◌≤◌, ◌<◌, length};
ghost use Rattle.format.specs.Lists.{over};
ghost use Rattle.format.specs.File.Piece.{said_rests};
ghost use Rattle.format.specs.File.Steps.{row_entries_said, numbers_said};
ghost use Rattle.loader.specs.FileRead.{room_test};

use crate::header::{Sizes, after_fields};
use columns::ColumnSet;
use format::fields::{said_body, said_rest};

// Whether an area holds the numbers of a file with these sizes.
pub fn numbers_held(sizes: Sizes, numbers: &[u16]) -> bool
    requires { (sizes.n < 256) × (sizes.b < 256) }
    ensures { result ≡ room_test sizes (length numbers.now) }
{
    !sizes.numbered || sizes.b * sizes.n <= numbers.len()
}

// The numbers of a file with these sizes.
pub fn put_numbers(out: &mut [u16], file: &[u8], sizes: Sizes)
    requires { (sizes.a < 256) × (sizes.b * sizes.n ≤ length out.old) }
    ensures { out.new ≡ over (numbers_said sizes.n sizes.b (said_rests (2 + sizes.a) file.now)) out.old }
{
    // behind the fields of p and of the sizes, and the constant rows
    let mut rest = after_fields(file, 2 + sizes.a);
    for r in 0..sizes.b {
        let at = r * sizes.n;
        put_row(&mut out[at..at + sizes.n], rest);
        rest = after_fields(rest, 2);
    }
}

// Those of the parameter row in front, from the field behind it: one at each of its columns, and 0 at the others.
fn put_row(out: &mut [u16], row: &[u8])
    ensures { out.new ≡ row_entries_said (length out.old) row.now }
{
    let set = ColumnSet::of_bytes(said_body(row));
    let mut numbers = said_body(said_rest(row)).chunks_exact(2);
    for (c, number) in out.iter_mut().enumerate() {
        *number = 0;
        if set.contains(c) {
            if let Some(pair) = numbers.next() {
                *number = u16::from_le_bytes([pair[0], pair[1]]);
            }
        }
    }
}
