// The report of the mixed question about a file, as text: five lines, or a refusal's one.
#![tactic(auto)]

ghost use Rattle.std.specs.Prelude.{◌≡◌, Ok};
ghost use Rattle.text.specs.Text.{Puts};
ghost use Rattle.mixed.specs.Shown.{mixed_shown};
ghost use Rattle.report.specs.Report.{report_text};
ghost use Rattle.mixed_report.specs.MixedReport.{mixed_answer_text, longest_mixed_report, MixedFileReport};

use columns::WIDTH;
use format::Refusal;
use mixed::{MixedAnswer, mixed_file};
use text::{put_column_line, put_number_line, put_refused_line, put_verdict_line};

// How many bytes the longest report has at most: 47 for the five lines without their rows and columns, and 4 for each member of the
// three sets.
pub const LONGEST_MIXED_REPORT: usize = 47 + 3 * (4 * WIDTH);

fn longest_tied() -> usize
    ensures { result ≡ longest_mixed_report }
{
    LONGEST_MIXED_REPORT
}

// The report of the mixed question about the model in a file, or of its refusal, over the front of the area; an area that this very
// report has no room in is refused.
pub fn report_mixed_file(file: &[u8], out: &mut [u8]) -> Result<usize, Refusal>
    ensures { MixedFileReport file.now out.old result out.new }
{
    let answer = mixed_file(file);
    let mut page = [0u8; LONGEST_MIXED_REPORT];
    let length = put_report(&mut page, &answer);
    text::print(&page[..length], out)
}

// The report of an answer.
fn put_report(out: &mut [u8], answer: &Result<MixedAnswer, Refusal>) -> usize
    ensures { Puts (report_text (mixed_shown answer.now).refusal (mixed_answer_text (mixed_shown answer.now))) out.old 0 out.new result }
{
    match answer {
        Ok(answer) => put_answer(out, answer),
        Err(refusal) => put_refused_line(out, 0, *refusal),
    }
}

// The five lines.
fn put_answer(out: &mut [u8], answer: &MixedAnswer) -> usize
    ensures { Puts (mixed_answer_text (mixed_shown (Ok answer.now))) out.old 0 out.new result }
{
    let after_verdict = put_verdict_line(out, 0, u8::from(answer.verdict));
    let after_rank = put_number_line(out, after_verdict, b"rank", usize::from(answer.rank));
    let after_rows = put_column_line(out, after_rank, b"rows", answer.rows);
    let after_columns = put_column_line(out, after_rows, b"columns", answer.columns);
    put_column_line(out, after_columns, b"short", answer.short)
}
