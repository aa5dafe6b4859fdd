// The report of the blocks of the model in a file, as text: a line for each block, the verdict and the rank, or a refusal's one line.
#![tactic(auto)]

ghost use Rattle.std.specs.Prelude.{◌≡◌, Ok};
ghost use Rattle.columns.specs.Columns.{members};
ghost use Rattle.columns.specs.ColumnSets.{whole};
ghost use Rattle.models.specs.Verdicts.{verdict_code};
ghost use Rattle.layered.specs.Shown.{answer_shown};
ghost use Rattle.text.specs.Text.{Puts};
ghost use Rattle.blocks.specs.Shown.{blocks_shown};
ghost use Rattle.report.specs.Report.{report_text};
ghost use Rattle.blocks_report.specs.BlocksReport.{block_columns, block_line, block_lines, blocks_text, longest_blocks_report, BlocksFileReport};

use blocks::{Blocks, file_blocks};
use columns::{ColumnSet, WIDTH};
use format::Refusal;
use layered::{Answer, layered_file};
use limits::MOST_COLUMNS;
use text::{
    put_bytes, put_column_line, put_item, put_number_line, put_refused_line, put_verdict_line,
};

// As many blocks as a byte can count.
const MOST_BLOCKS: usize = 255;

// How many bytes the longest report has at most: 28 for the verdict and the rank, 10 for each block without its columns, and 4 for each
// column, which is in one block.
pub const LONGEST_BLOCKS_REPORT: usize = 28 + 10 * MOST_BLOCKS + 4 * WIDTH;

fn longest_tied() -> usize
    ensures { result ≡ longest_blocks_report }
{
    LONGEST_BLOCKS_REPORT
}

// The report of the blocks of the model in a file, or of the file's refusal, over the front of the area; an area that this very report
// has no room in is refused.
pub fn report_blocks_file(file: &[u8], out: &mut [u8]) -> Result<usize, Refusal>
    ensures { BlocksFileReport file.now out.old result out.new }
{
    let blocks = file_blocks(file);
    let answer = layered_file(file);
    let mut page = [0u8; LONGEST_BLOCKS_REPORT];
    let length = put_report(&mut page, &blocks, &answer);
    text::print(&page[..length], out)
}

// The report of the blocks, with the verdict and the rank of an answer. Both are refused or none is.
fn put_report(
    out: &mut [u8],
    blocks: &Result<Blocks, Refusal>,
    answer: &Result<Answer, Refusal>,
) -> usize
    requires { (answer_shown answer.now).refusal ≡ (blocks_shown blocks.now).refusal }
    ensures { Puts (report_text (blocks_shown blocks.now).refusal (blocks_text (answer_shown answer.now).verdict (answer_shown answer.now).rank (blocks_shown blocks.now))) out.old 0 out.new result }
{
    match (blocks, answer) {
        (Ok(blocks), Ok(answer)) => put_answer(out, blocks, answer),
        (Err(refusal), _) => put_refused_line(out, 0, *refusal),
        (Ok(_), Err(_)) => unreachable!(),
    }
}

// The lines of the blocks, the verdict and the rank.
fn put_answer(out: &mut [u8], blocks: &Blocks, answer: &Answer) -> usize
    ensures { Puts (blocks_text (verdict_code answer.now.verdict) answer.now.rank (blocks_shown (Ok blocks.now))) out.old 0 out.new result }
{
    let after_blocks = put_block_lines(out, 0, &blocks.numbers, blocks.count);
    let after_verdict = put_verdict_line(out, after_blocks, u8::from(answer.verdict));
    put_number_line(out, after_verdict, b"rank", usize::from(answer.rank))
}

fn put_block_lines(out: &mut [u8], at: usize, numbers: &[u8; MOST_COLUMNS], count: u8) -> usize
    ensures { Puts (block_lines numbers.now count 0) out.old at out.new result }
{
    let mut place = at;
    for k in 0..count {
        place = put_block_line(out, place, numbers, k);
    }
    place
}

// The number of a block and its columns.
fn put_block_line(out: &mut [u8], at: usize, numbers: &[u8; MOST_COLUMNS], k: u8) -> usize
    ensures { Puts (block_line numbers.now k) out.old at out.new result }
{
    let set = columns_of_block(numbers, k);
    let after_word = put_bytes(out, at, b"block");
    let after_number = put_item(out, after_word, usize::from(k));
    put_column_line(out, after_number, b"", set)
}

fn columns_of_block(numbers: &[u8; MOST_COLUMNS], k: u8) -> ColumnSet
    ensures { members (whole result) ≡ block_columns numbers.now k }
{
    let mut set = ColumnSet::empty();
    for (x, number) in numbers.iter().enumerate() {
        if *number == k {
            set = set.with(x);
        }
    }
    set
}
