// Edits of an open model: what each names, how it is judged, and what it changes.
ghost use Rattle.std.specs.Prelude.{◌≡◌};
ghost use Rattle.columns.specs.ColumnSets.{whole};
ghost use Rattle.format.specs.Refused.{refusal_of};
ghost use Rattle.format.specs.Refusals.{unless, first_refusal, row_beyond, already_so, row_test};
ghost use Rattle.open_models.specs.Open.{column_of};
ghost use Rattle.editing.specs.Shown.{edit_shown};
ghost use Rattle.editing.specs.Edits.{meant, own_refusal, row_refusal, presence_refusal, words_done, columns_done, EditNamed, EditRead};

use columns::ColumnSet;
use format::Refusal;

// A column is taken off or put back; a place, by its row and its column, is set or cleared.
#[derive(Clone, Copy)]
pub enum Edit {
    TakeOff(usize),
    PutBack(usize),
    SetPlace(usize, usize),
    ClearPlace(usize, usize),
}

// The kinds of edits, by number.
const TAKE_OFF: u8 = 1;

const PUT_BACK: u8 = 2;

const SET_PLACE: u8 = 3;

const CLEAR_PLACE: u8 = 4;

// How many bytes an edit has: its kind, its row and its column.
const EDIT_BYTES: usize = 3;

// The column that an edit names.
fn named_column(edit: Edit) -> usize
    ensures { result ≡ column_of (meant edit) }
{
    match edit {
        Edit::TakeOff(c) => c,
        Edit::PutBack(c) => c,
        Edit::SetPlace(_, c) => c,
        Edit::ClearPlace(_, c) => c,
    }
}

// Whether row i is one of b.
fn judge_row(i: usize, b: usize) -> Result<(), Refusal>
    ensures { refusal_of result ≡ first_refusal (unless (row_test i b) row_beyond) }
{
    if i < b {
        Ok(())
    } else {
        Err(Refusal::RowBeyond)
    }
}

// Whether the row that an edit names is one of b.
fn judge_named_row(b: usize, edit: Edit) -> Result<(), Refusal>
    ensures { refusal_of result ≡ row_refusal b (meant edit) }
{
    match edit {
        Edit::SetPlace(r, _) => judge_row(r, b),
        Edit::ClearPlace(r, _) => judge_row(r, b),
        Edit::TakeOff(_) => Ok(()),
        Edit::PutBack(_) => Ok(()),
    }
}

// Whether a column that is taken off is in, and one that is put back out.
fn judge_presence(present: ColumnSet, edit: Edit) -> Result<(), Refusal>
    ensures { refusal_of result ≡ presence_refusal (whole present) (meant edit) }
{
    match edit {
        Edit::TakeOff(c) => judge_is(present.contains(c)),
        Edit::PutBack(c) => judge_is(!present.contains(c)),
        Edit::SetPlace(_, _) => Ok(()),
        Edit::ClearPlace(_, _) => Ok(()),
    }
}

// Whether it is so.
fn judge_is(so: bool) -> Result<(), Refusal>
    ensures { refusal_of result ≡ first_refusal (unless so already_so) }
{
    if so { Ok(()) } else { Err(Refusal::AlreadySo) }
}

// Why an edit of a model that is judged is refused, if it is.
pub fn judge_edit(n: usize, b: usize, present: ColumnSet, edit: Edit) -> Result<(), Refusal>
    ensures { refusal_of result ≡ own_refusal n b (whole present) (meant edit) }
{
    judge_named_row(b, edit)?;
    if named_column(edit) >= n {
        return Err(Refusal::ColumnBeyond);
    }
    if !present.within(n) {
        return Err(Refusal::ColumnBeyond);
    }
    judge_presence(present, edit)
}

// The columns present after an edit.
pub fn changed_columns(present: ColumnSet, edit: Edit) -> ColumnSet
    ensures { whole result ≡ columns_done (whole present) (meant edit) }
{
    match edit {
        Edit::TakeOff(c) => present.without(c),
        Edit::PutBack(c) => present.with(c),
        Edit::SetPlace(_, _) => present,
        Edit::ClearPlace(_, _) => present,
    }
}

// The parameter rows of an area, changed by an edit.
pub fn change_rows(words: &mut [u64], edit: Edit)
    ensures { words.new ≡ words_done words.old (meant edit) }
{
    match edit {
        Edit::SetPlace(r, c) => {
            let row = columns::row(words, r).with(c);
            columns::put_row(words, r, row);
        }
        Edit::ClearPlace(r, c) => {
            let row = columns::row(words, r).without(c);
            columns::put_row(words, r, row);
        }
        Edit::TakeOff(_) => {}
        Edit::PutBack(_) => {}
    }
}

// The edit of a kind, a row and a column.
pub fn name_edit(kind: u8, row: usize, column: usize) -> Result<Edit, Refusal>
    ensures { EditNamed kind row column (edit_shown result) }
{
    match kind {
        TAKE_OFF => Ok(Edit::TakeOff(column)),
        PUT_BACK => Ok(Edit::PutBack(column)),
        SET_PLACE => Ok(Edit::SetPlace(row, column)),
        CLEAR_PLACE => Ok(Edit::ClearPlace(row, column)),
        _ => Err(Refusal::Unexpected),
    }
}

// The edit in bytes. Bytes behind it are not read.
pub fn read_edit(bytes: &[u8]) -> Result<Edit, Refusal>
    ensures { EditRead bytes.now (edit_shown result) }
{
    if bytes.len() < EDIT_BYTES {
        return Err(Refusal::Truncated);
    }
    name_edit(bytes[0], usize::from(bytes[1]), usize::from(bytes[2]))
}
