// The report of a file, as text: document 01's five lines, or a refusal's one.
#![tactic(auto)]

ghost use Rattle.std.specs.Prelude.{◌≡◌, Ok};
ghost use Rattle.text.specs.Text.{ascii, line, Puts};
ghost use Rattle.layered.specs.Shown.{answer_shown};
ghost use Rattle.report.specs.Report.{row_items, answer_text, report_text, longest_report};
ghost use Rattle.report.specs.FileReport.{FileReport};

use columns::WIDTH;
use format::Refusal;
use layered::{Answer, layered_file};
use limits::{MOST_ROWS, NO_COLUMN};
use text::{
    put_byte, put_bytes, put_column_line, put_number_line, put_pair_unless, put_refused_line,
    put_verdict_line,
};

// How many bytes the longest report has at most: 55 for the five lines without their columns and rows, 4 for each column of the two
// sets, and 8 for each row with its column.
pub const LONGEST_REPORT: usize = 55 + 2 * (4 * WIDTH) + 8 * MOST_ROWS;

// What stands for no column in a list of the rows' columns.
const NOTHING: usize = NO_COLUMN as usize;

fn longest_tied() -> usize
    ensures { result ≡ longest_report }
{
    LONGEST_REPORT
}

// The report of the model in a file, or of the file's refusal, over the front of the area; an area that this very report has no room
// in is refused.
pub fn report_file(file: &[u8], out: &mut [u8]) -> Result<usize, Refusal>
    ensures { FileReport file.now out.old result out.new }
{
    let answer = layered_file(file);
    let mut page = [0u8; LONGEST_REPORT];
    let length = put_report(&mut page, &answer);
    text::print(&page[..length], out)
}

// The report of an answer.
fn put_report(out: &mut [u8], answer: &Result<Answer, Refusal>) -> usize
    ensures { Puts (report_text (answer_shown answer.now).refusal (answer_text (answer_shown answer.now))) out.old 0 out.new result }
{
    match answer {
        Ok(answer) => put_answer(out, answer),
        Err(refusal) => put_refused_line(out, 0, *refusal),
    }
}

// The five lines.
fn put_answer(out: &mut [u8], answer: &Answer) -> usize
    ensures { Puts (answer_text (answer_shown (Ok answer.now))) out.old 0 out.new result }
{
    let after_verdict = put_verdict_line(out, 0, u8::from(answer.verdict));
    let after_rank = put_number_line(out, after_verdict, b"rank", usize::from(answer.rank));
    let after_constants = put_column_line(out, after_rank, b"constants", answer.constants);
    let after_parameters = put_row_line(out, after_constants, &answer.rows);
    put_column_line(out, after_parameters, b"short", answer.short)
}

fn put_row_line(out: &mut [u8], at: usize, rows: &[u8]) -> usize
    ensures { Puts (line (ascii "parameters") (row_items rows.now)) out.old at out.new result }
{
    let after_word = put_bytes(out, at, b"parameters");
    let after_items = put_rows(out, after_word, rows);
    put_byte(out, after_items, b'\n')
}

// The rows that have a column, each with it.
fn put_rows(out: &mut [u8], at: usize, rows: &[u8]) -> usize
    ensures { Puts (row_items rows.now) out.old at out.new result }
{
    let mut place = at;
    for (r, c) in rows.iter().enumerate() {
        place = put_pair_unless(out, place, NOTHING, r, usize::from(*c));
    }
    place
}
