// The report of why a column of the model in a file is not placed, as text: one line or two, or a refusal's one.
#![tactic(auto)]

ghost use Rattle.std.specs.Prelude.{◌≡◌, Ok};
ghost use Rattle.text.specs.Text.{ascii, line, Puts};
ghost use Rattle.reason.specs.Shown.{reason_shown};
ghost use Rattle.report.specs.Report.{report_text};
ghost use Rattle.reason_report.specs.ReasonReport.{multiplier_items, reason_text, longest_reason_report, ReasonFileReport};

use columns::WIDTH;
use format::Refusal;
use limits::MOST_COLUMNS;
use reason::{Reason, file_reason};
use text::{put_byte, put_bytes, put_column_line, put_pair_unless, put_refused_line};

// How many bytes the longest report has at most: 19 for the two lines without their columns, 4 for each column of the set, and 9 for
// each column with its multiplier.
pub const LONGEST_REASON_REPORT: usize = 19 + 4 * WIDTH + 9 * MOST_COLUMNS;

fn longest_tied() -> usize
    ensures { result ≡ longest_reason_report }
{
    LONGEST_REASON_REPORT
}

// The report of the reason for a column of the model in a file, or of the refusal, over the front of the area; an area that this very
// report has no room in is refused.
pub fn report_reason_file(file: &[u8], column: usize, out: &mut [u8]) -> Result<usize, Refusal>
    ensures { ReasonFileReport file.now column out.old result out.new }
{
    let answer = file_reason(file, column);
    let mut page = [0u8; LONGEST_REASON_REPORT];
    let length = put_report(&mut page, &answer);
    text::print(&page[..length], out)
}

// The report of an answer.
fn put_report(out: &mut [u8], answer: &Result<Reason, Refusal>) -> usize
    ensures { Puts (report_text (reason_shown answer.now).refusal (reason_text (reason_shown answer.now))) out.old 0 out.new result }
{
    match answer {
        Ok(answer) => put_answer(out, answer),
        Err(refusal) => put_refused_line(out, 0, *refusal),
    }
}

// The line of the set and that of the multipliers, where they are given.
fn put_answer(out: &mut [u8], answer: &Reason) -> usize
    ensures { Puts (reason_text (reason_shown (Ok answer.now))) out.old 0 out.new result }
{
    let after_set = put_column_line(out, 0, b"reason", answer.set);
    match &answer.multipliers {
        None => after_set,
        Some(multipliers) => put_multiplier_line(out, after_set, multipliers),
    }
}

fn put_multiplier_line(out: &mut [u8], at: usize, multipliers: &[u16]) -> usize
    ensures { Puts (line (ascii "multipliers") (multiplier_items multipliers.now)) out.old at out.new result }
{
    let after_word = put_bytes(out, at, b"multipliers");
    let after_items = put_multipliers(out, after_word, multipliers);
    put_byte(out, after_items, b'\n')
}

// The columns that have a multiplier, each with it.
fn put_multipliers(out: &mut [u8], at: usize, multipliers: &[u16]) -> usize
    ensures { Puts (multiplier_items multipliers.now) out.old at out.new result }
{
    let mut place = at;
    for (x, multiplier) in multipliers.iter().enumerate() {
        place = put_pair_unless(out, place, 0, x, usize::from(*multiplier));
    }
    place
}
