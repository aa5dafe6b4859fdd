// Answers as bytes, for a caller that lends an area: each is written over the front of the area, or the area is refused and left as it
// was.
#![tactic(auto)]

ghost use Rattle.std.specs.Prelude.{◌≡◌, ◌≤◌, Ok, length};
ghost use Rattle.columns.specs.ColumnSets.{whole};
ghost use Rattle.format.specs.Refused.{refusal_of};
ghost use Rattle.format.specs.Lists.{over};
ghost use Rattle.layered.specs.Shown.{answer_shown};
ghost use Rattle.mixed.specs.Shown.{mixed_shown};
ghost use Rattle.host.specs.AreaCall.{PutOver};
ghost use Rattle.host.specs.AnswerBytes.{front_length, front_bytes, answer_length, answer_bytes, answer_numbers, mixed_length, mixed_bytes, mixed_numbers};

use columns::ColumnSet;
use format::{Refusal, put_set};
use layered::Answer;
use limits::{MOST_ROWS, SET_BYTES};
use mixed::MixedAnswer;

// Where the three sets start that stand behind an answer's verdict and rank.
const FIRST_SET: usize = 2;

const SECOND_SET: usize = FIRST_SET + SET_BYTES;

const THIRD_SET: usize = SECOND_SET + SET_BYTES;

// How many bytes verdict, rank and three sets take.
const FRONT_LENGTH: usize = THIRD_SET + SET_BYTES;

// How many bytes an answer to a layered model takes.
pub const ANSWER_LENGTH: usize = FRONT_LENGTH + MOST_ROWS;

// How many bytes an answer to a mixed model takes.
pub const MIXED_LENGTH: usize = FRONT_LENGTH;

// What every answer's bytes begin with: verdict, rank and three sets.
fn put_front(
    out: &mut [u8],
    verdict: u8,
    rank: u8,
    first: ColumnSet,
    second: ColumnSet,
    third: ColumnSet,
)
    requires { front_length ≤ length out.old }
    ensures { out.new ≡ over (front_bytes verdict rank (whole first) (whole second) (whole third)) out.old }
{
    out[0] = verdict;
    out[1] = rank;
    // there is room for each
    let _ = put_set(&mut out[FIRST_SET..], first);
    let _ = put_set(&mut out[SECOND_SET..], second);
    let _ = put_set(&mut out[THIRD_SET..], third);
}

// What the bytes of an answer to a layered model show: the verdict's number, the rank, the placed set, the constant side, the short set,
// and the column of each parameter row. Any numbers may stand in it.
#[derive(Drop)]
pub struct AnswerNumbers {
    pub verdict: u8,
    pub rank: u8,
    pub placed: ColumnSet,
    pub constants: ColumnSet,
    pub short: ColumnSet,
    pub rows: [u8; MOST_ROWS],
}

impl AnswerNumbers {
    // Those of an answer that a call gives.
    pub fn of(given: &Answer) -> AnswerNumbers
        ensures { answer_numbers result ≡ answer_shown (Ok given.now) }
    {
        AnswerNumbers {
            verdict: u8::from(given.verdict),
            rank: given.rank,
            placed: given.placed,
            constants: given.constants,
            short: given.short,
            rows: given.rows,
        }
    }
}

// What the bytes of an answer to a mixed model show: the verdict's number, the rank, the rows I and columns J, and the short set of the
// layered form. Any numbers may stand in it.
#[derive(Clone, Copy)]
pub struct MixedNumbers {
    pub verdict: u8,
    pub rank: u8,
    pub rows: ColumnSet,
    pub columns: ColumnSet,
    pub short: ColumnSet,
}

impl MixedNumbers {
    // Those of an answer that a call gives.
    pub fn of(given: &MixedAnswer) -> MixedNumbers
        ensures { mixed_numbers result ≡ mixed_shown (Ok given.now) }
    {
        MixedNumbers {
            verdict: u8::from(given.verdict),
            rank: given.rank,
            rows: given.rows,
            columns: given.columns,
            short: given.short,
        }
    }
}

// The bytes of an answer to a layered model: verdict, rank, placed set, constant side, short set, and the column of each parameter row.
pub fn put_answer(out: &mut [u8], answer: &AnswerNumbers) -> Result<(), Refusal>
    ensures { PutOver answer_length (answer_bytes (answer_numbers answer.now)) out.old (refusal_of result) out.new }
{
    if out.len() < ANSWER_LENGTH {
        return Err(Refusal::AreaShort);
    }
    put_front(
        out,
        answer.verdict,
        answer.rank,
        answer.placed,
        answer.constants,
        answer.short,
    );
    out[FRONT_LENGTH..ANSWER_LENGTH].copy_from_slice(&answer.rows);
    Ok(())
}

// The bytes of an answer to a mixed model: verdict, rank, the rows I and columns J shown, and the short set of the layered form.
pub fn put_mixed(out: &mut [u8], answer: &MixedNumbers) -> Result<(), Refusal>
    ensures { PutOver mixed_length (mixed_bytes (mixed_numbers answer.now)) out.old (refusal_of result) out.new }
{
    if out.len() < MIXED_LENGTH {
        return Err(Refusal::AreaShort);
    }
    put_front(
        out,
        answer.verdict,
        answer.rank,
        answer.rows,
        answer.columns,
        answer.short,
    );
    Ok(())
}
