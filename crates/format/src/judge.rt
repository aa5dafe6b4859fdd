// A file judged from its front: for each field head, tag and length, body, then content. A judging function of a piece gives what
// follows it, or the first refusal; its caller goes on there.
ghost use Rattle.std.specs.Prelude.{◌≡◌, ◌≤◌, ◌++◌, length};
ghost use Rattle.columns.specs.Columns.{width};
ghost use Rattle.format.specs.Refusals.{head_bytes, first_refusal, due_test};
ghost use Rattle.format.specs.Refused.{refusal_of};
ghost use Rattle.format.specs.File.Piece.{Piece, head_tests, many, closed, Judgement, PieceJudged, JudgesEach, FieldParts};
ghost use Rattle.format.specs.File.Steps.{RowParts};
ghost use Rattle.format.specs.NumberTable.{table_words, NumbersJudged};
ghost use Rattle.format.specs.File.Format.{constant_row, parameter_row, parameter_rows, number_field, numbered_row, numbered_rows, numbered_test, and_its_numbers, end_field, row_fields};
ghost use Rattle.format.specs.File.Unnumbered.{unnumbered_rows};

use crate::content::{byte_at, entries_below};
use crate::fields::{
    CONSTANT_TAG, END_TAG, HEAD_BYTES, NUMBER_TAG, PARAMETER_TAG, parameter_size, past_head,
    said_length,
};
use crate::header::Header;
use crate::numbers::{TABLE_WORDS, meet_entries};
use crate::refusals::Refusal;
use columns::ColumnSet;

// A field up to its content: its body, and what follows it.
pub fn judge_head(rest: &[u8], tag: u8, size: usize) -> Result<(&[u8], &[u8]), Refusal>
    ensures { Judgement (head_tests tag size rest.now) (FieldParts size rest.entry) result }
{
    if rest.len() < HEAD_BYTES {
        return Err(Refusal::Truncated);
    }
    let behind = past_head(rest);
    let due = is_due(rest, tag, size);
    let whole = size <= behind.len();
    if !due {
        return Err(Refusal::Unexpected);
    }
    if !whole {
        return Err(Refusal::Truncated);
    }
    Ok((&behind[..size], &behind[size..]))
}

fn is_due(rest: &[u8], tag: u8, size: usize) -> bool
    requires { head_bytes ≤ length rest.now }
    ensures { result ≡ due_test tag size rest.now }
{
    rest[0] == tag && said_length(rest) == size
}

fn judge_constant_row(rest: &[u8], p: u32, n: u8) -> Result<&[u8], Refusal>
    ensures { PieceJudged (constant_row p n) rest.now result }
{
    let (body, next) = judge_head(rest, CONSTANT_TAG, 2 * usize::from(n))?;
    if !entries_below(body, p) {
        return Err(Refusal::ConstantBeyond);
    }
    Ok(next)
}

// A row so many times, each judged where the one before it ends.
fn judge_rows<'a, F: Fn(&'a [u8]) -> Result<&'a [u8], Refusal>>(
    file: &'a [u8],
    count: u8,
    judge_row: F,
) -> Result<&'a [u8], Refusal>
    requires { F.IsAlwaysCallable judge_row }
    ensures { (P : Piece (Unit {0})) → JudgesEach (F.post judge_row) P → PieceJudged (many count P) file.now result }
{
    let mut rest = file;
    for _ in 0..count {
        rest = judge_row(rest)?;
    }
    Ok(rest)
}

fn judge_constant_rows(file: &[u8], p: u32, n: u8, a: u8) -> Result<&[u8], Refusal>
    ensures { PieceJudged (many a (constant_row p n)) file.now result }
{
    judge_rows(file, a, |rest| judge_constant_row(rest, p, n))
}

// A parameter row: its set, and what follows it.
fn judge_parameter_row(rest: &[u8], n: u8) -> Result<(ColumnSet, &[u8]), Refusal>
    ensures { Judgement ((parameter_row n).tests rest.now) (RowParts n rest.now) result }
{
    let (body, next) = judge_head(rest, PARAMETER_TAG, parameter_size(usize::from(n)))?;
    let set = ColumnSet::of_bytes(body);
    if !set.within(usize::from(n)) {
        return Err(Refusal::ParameterBeyond);
    }
    Ok((set, next))
}

fn judge_parameter_rows(file: &[u8], n: u8, b: u8) -> Result<&[u8], Refusal>
    ensures { PieceJudged (many b (parameter_row n)) file.now result }
{
    judge_rows(file, b, |rest| Ok(judge_parameter_row(rest, n)?.1))
}

// The numbers of so many parameters, after those in the table.
fn judge_numbers<'a>(rest: &'a [u8], count: usize, table: &mut [u64]) -> Result<&'a [u8], Refusal>
    requires { (count ≤ width) × (length table.old ≡ table_words) }
    ensures { NumbersJudged (number_field count) (λ before ks. before ++ ks) rest.now table.old table.new result }
{
    let (body, next) = judge_head(rest, NUMBER_TAG, 2 * count)?;
    if !meet_entries(table, body) {
        return Err(Refusal::NumberTwice);
    }
    Ok(next)
}

// A parameter row and its numbers.
fn judge_numbered_row<'a>(rest: &'a [u8], n: u8, table: &mut [u64]) -> Result<&'a [u8], Refusal>
    requires { length table.old ≡ table_words }
    ensures { NumbersJudged (numbered_row n) and_its_numbers rest.now table.old table.new result }
{
    let (set, numbers) = judge_parameter_row(rest, n)?;
    judge_numbers(numbers, set.size(), table)
}

fn judge_numbered_rows(file: &[u8], n: u8, b: u8) -> Result<&[u8], Refusal>
    ensures { PieceJudged (numbered_rows n b) file.now result }
{
    let mut table = [0u64; TABLE_WORDS];
    let mut rest = file;
    for _ in 0..b {
        rest = judge_numbered_row(rest, n, &mut table)?;
    }
    Ok(rest)
}

// Whether the model is numbered whose parameter rows stand in front: by the tag behind the first of them.
pub fn is_numbered(rest: &[u8], n: usize, b: usize) -> bool
    ensures { result ≡ numbered_test n b rest.now }
{
    b != 0 && byte_at(rest, HEAD_BYTES + parameter_size(n)) == NUMBER_TAG
}

// The parameter rows, numbered or not.
fn judge_either_rows(file: &[u8], n: u8, b: u8) -> Result<&[u8], Refusal>
    ensures { PieceJudged (parameter_rows n b) file.now result }
{
    if is_numbered(file, usize::from(n), usize::from(b)) {
        return judge_numbered_rows(file, n, b);
    }
    judge_parameter_rows(file, n, b)
}

// The end, and nothing after it.
fn judge_end(rest: &[u8]) -> Result<(), Refusal>
    ensures { refusal_of result ≡ first_refusal (closed end_field rest.now) }
{
    let (_, behind) = judge_head(rest, END_TAG, 0)?;
    if behind.len() != 0 {
        return Err(Refusal::Trailing);
    }
    Ok(())
}

// The fields from tag 3 on.
pub fn judge_row_fields(rows: &[u8], header: Header) -> Result<(), Refusal>
    ensures { refusal_of result ≡ first_refusal (closed (row_fields header.p (header.n, header.a, header.b)) rows.now) }
{
    let parameters = judge_constant_rows(rows, header.p, header.n, header.a)?;
    judge_end(judge_either_rows(parameters, header.n, header.b)?)
}

// The fields from tag 3 on of an unnumbered file.
pub fn judge_unnumbered_rows(rows: &[u8], header: Header) -> Result<(), Refusal>
    ensures { refusal_of result ≡ first_refusal (closed (unnumbered_rows header.p (header.n, header.a, header.b)) rows.now) }
{
    let parameters = judge_constant_rows(rows, header.p, header.n, header.a)?;
    judge_end(judge_parameter_rows(parameters, header.n, header.b)?)
}
