// A model held open in the bytes of an area: those of the columns present, and behind them the unnumbered file of the model. The file is
// judged at each call, so that no bytes whatever make a call fail.
ghost use Rattle.std.specs.Prelude.{◌≡◌, ◌+◌, ◌≤◌, length};
ghost use Rattle.limits.specs.Limits.{most_columns, most_rows, set_bytes};
ghost use Rattle.columns.specs.ColumnSets.{whole};
ghost use Rattle.format.specs.Refused.{refusal_of};
ghost use Rattle.format.specs.File.Unnumbered.{unnumbered_judge, row_start};
ghost use Rattle.layered.specs.Shown.{answer_shown};
ghost use Rattle.editing.specs.Edits.{meant, place_done};
ghost use Rattle.editing.specs.Areas.{area_file, row_done, bytes_done, EditRoom, OpenAreaCall, EditAreaCall, AnswerAreaCall};

use crate::edit;
use crate::edit::Edit;
use columns::{ColumnSet, MOST_WORDS};
use format::fields::{HEAD_BYTES, PRIME_BYTES, SIZES_BYTES, parameter_size};
use format::{Refusal, put_set, put_set_front, read_unnumbered_header};
use layered::{Answer, offered_rank};
use limits::{MOST_CONSTANTS, SET_BYTES};
use loader::read_rows;
use writer::write_file;

// The file in an area, or the empty part at the end.
fn file_in(area: &[u8]) -> &[u8]
    ensures { result.now ≡ area_file area.now }
{
    let at = area.len().min(SET_BYTES);
    &area[at..]
}

// Why the file in an area is refused, if it is.
pub fn judge_area(area: &[u8]) -> Result<(), Refusal>
    ensures { refusal_of result ≡ unnumbered_judge (area_file area.now) }
{
    read_unnumbered_header(file_in(area))?;
    Ok(())
}

// The model of a file, opened in an area.
pub fn open_area(file: &[u8], area: &mut [u8]) -> Result<(), Refusal>
    ensures { OpenAreaCall file.now area.old (refusal_of result) area.new }
{
    let mut constants = [0u16; MOST_CONSTANTS];
    let mut parameters = [0u64; MOST_WORDS];
    let sizes = read_rows(file, &mut constants, &mut parameters)?;
    if area.len() < SET_BYTES {
        return Err(Refusal::AreaShort);
    }
    // from here on the model has no numbers
    let model = sizes.model(&constants, &parameters);
    write_file(&model, &mut area[SET_BYTES..])?;
    put_set(area, ColumnSet::below(sizes.n))
}

// The set with or without a column.
fn changed(set: ColumnSet, c: usize, value: bool) -> ColumnSet
    ensures { whole result ≡ place_done (whole set) c value }
{
    if value { set.with(c) } else { set.without(c) }
}

// Where in the area the body of parameter row r starts.
fn row_start(n: usize, a: usize, r: usize) -> usize
    requires { (n ≤ most_columns) × (a ≤ most_rows) × (r ≤ most_rows) }
    ensures { result ≡ set_bytes + row_start n a r }
{
    let front = SET_BYTES + (HEAD_BYTES + PRIME_BYTES) + (HEAD_BYTES + SIZES_BYTES);
    front + a * (HEAD_BYTES + 2 * n) + r * (HEAD_BYTES + parameter_size(n)) + HEAD_BYTES
}

// A place of the row whose body of so many bytes starts there, set or cleared.
fn change_place(area: &mut [u8], at: usize, size: usize, c: usize, value: bool)
    requires { (at + size ≤ length area.old) × (size ≤ set_bytes) }
    ensures { area.new ≡ row_done at size area.old c value }
{
    let end = at + size;
    let row = ColumnSet::of_bytes(&area[at..end]);
    // there is room for it
    let _ = put_set_front(&mut area[at..], changed(row, c, value), size);
}

// An edit made in the bytes of an area, of a model of n columns and a constant rows.
fn change_bytes(area: &mut [u8], n: usize, a: usize, present: ColumnSet, edit: Edit)
    requires { (n ≤ most_columns) × (a ≤ most_rows) × EditRoom n a area.old (meant edit) }
    ensures { area.new ≡ bytes_done n a (whole present) area.old (meant edit) }
{
    match edit {
        Edit::SetPlace(r, c) => {
            change_place(area, row_start(n, a, r), parameter_size(n), c, true);
        }
        Edit::ClearPlace(r, c) => {
            change_place(area, row_start(n, a, r), parameter_size(n), c, false);
        }
        Edit::TakeOff(_) => {
            let _ = put_set(area, edit::changed_columns(present, edit));
        }
        Edit::PutBack(_) => {
            let _ = put_set(area, edit::changed_columns(present, edit));
        }
    }
}

// An edit, in bytes, of the model in an area.
pub fn edit_area(area: &mut [u8], bytes: &[u8]) -> Result<(), Refusal>
    ensures { EditAreaCall area.old bytes.now (refusal_of result) area.new }
{
    let header = read_unnumbered_header(file_in(area))?;
    let made = edit::read_edit(bytes)?;
    let n = usize::from(header.n);
    let present = ColumnSet::of_bytes(&area[..SET_BYTES]);
    edit::judge_edit(n, usize::from(header.b), present, made)?;
    change_bytes(area, n, usize::from(header.a), present, made);
    Ok(())
}

// The answer to the model in an area, over the columns present.
pub fn answer_area(area: &[u8]) -> Result<Answer, Refusal>
    ensures { AnswerAreaCall area.now (answer_shown result) }
{
    let file = file_in(area);
    let mut constants = [0u16; MOST_CONSTANTS];
    let mut parameters = [0u64; MOST_WORDS];
    if let Ok(sizes) = read_rows(file, &mut constants, &mut parameters) {
        if !sizes.numbered {
            let present = ColumnSet::of_bytes(&area[..SET_BYTES]);
            return offered_rank(&sizes.model(&constants, &parameters), present);
        }
    }
    // a field of numbers is not due here
    read_unnumbered_header(file)?;
    unreachable!()
}
