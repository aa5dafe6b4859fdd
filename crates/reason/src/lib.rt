// The reason for an unplaced column, of a model handed over or in a file; and the bytes of the answer.
#![tactic(auto)]

ghost use Rattle.std.specs.Prelude.{◌≡◌, Ok};
ghost use Rattle.std.proofs.Math.Option.{none};
ghost use Rattle.models.specs.Lent.{constants_lent, rows_lent};
ghost use Rattle.format.specs.Refused.{refusal_of};
ghost use Rattle.format.specs.TestLaws.{Accepted};
ghost use Rattle.host.specs.AreaCall.{PutOver};
ghost use Rattle.reason.specs.Shown.{reason_shown};
ghost use Rattle.reason.specs.Answers.{ReasonAsked, ReasonModelCall, ReasonFileCall};
ghost use Rattle.reason.specs.Bytes.{reason_length, reason_bytes, reason_numbers};
ghost use Rattle.reason.specs.Code.{Unplaced, Explained};

use columns::{ColumnSet, MOST_WORDS};
use exchange::{Dependence, column_dependence, solve};
use format::{Refusal, judge_model, put_set};
use limits::{MOST_COLUMNS, MOST_CONSTANTS, SET_BYTES};
use loader::read_rows;
use models::LentModel;
use touching::touching_rows;
use writer::put_each;

// The reason, a set of columns; and the multiplier of each column, where multipliers are given.
#[derive(Drop)]
pub struct Reason {
    pub set: ColumnSet,
    pub multipliers: Option<[u16; MOST_COLUMNS]>,
}

// How many bytes an answer takes.
pub const REASON_LENGTH: usize = SET_BYTES + 1 + 2 * MOST_COLUMNS;

// The reason for a column that is not placed. Where it and the placed columns are offered alone, the short set is what blocks it.
fn explain(model: &LentModel<'_>, placed: ColumnSet, column: usize) -> Reason
    requires { Unplaced model.now.p model.now.n model.now.a model.now.b (constants_lent model.now) (rows_lent model.now) placed column }
    ensures { Explained model.now.p model.now.n model.now.a model.now.b (constants_lent model.now) (rows_lent model.now) column (reason_shown (Ok result)) }
{
    let Some(s) = solve(model, placed.with(column)) else {
        unreachable!()
    };
    let set = s.short;
    let rows = touching_rows(model.parameters, model.n, model.b, set);
    if rows != 0 {
        return Reason {
            set,
            multipliers: None,
        };
    }
    let others = set.without(column);
    let Some(dependence) = column_dependence(model, others, column) else {
        unreachable!()
    };
    let Dependence::DependsOn(multipliers) = dependence else {
        unreachable!()
    };
    Reason {
        set,
        multipliers: Some(multipliers),
    }
}

// The answer to the question about a model that is judged.
fn ask(model: &LentModel<'_>, column: usize) -> Result<Reason, Refusal>
    requires { Accepted model.now.p model.now.n model.now.a model.now.b (constants_lent model.now) (rows_lent model.now) none }
    ensures { ReasonAsked model.now.p model.now.n model.now.a model.now.b (constants_lent model.now) (rows_lent model.now) column (reason_shown result) }
{
    let n = model.n;
    if column >= n {
        return Err(Refusal::ColumnBeyond);
    }
    let all = ColumnSet::below(n);
    let Some(s) = solve(model, all) else {
        unreachable!()
    };
    let placed = s.placed;
    if placed.contains(column) {
        return Err(Refusal::ColumnPlaced);
    }
    Ok(explain(model, placed, column))
}

// Why the column is not placed, in a layered model. Numbers are judged and no more.
pub fn model_reason(model: &LentModel<'_>, column: usize) -> Result<Reason, Refusal>
    ensures { ReasonModelCall model.now column (reason_shown result) }
{
    judge_model(model)?;
    ask(model, column)
}

// The same in the model of a file, or the file's refusal.
pub fn file_reason(file: &[u8], column: usize) -> Result<Reason, Refusal>
    ensures { ReasonFileCall file.now column (reason_shown result) }
{
    let mut constants = [0u16; MOST_CONSTANTS];
    let mut parameters = [0u64; MOST_WORDS];
    let sizes = read_rows(file, &mut constants, &mut parameters)?;
    ask(&sizes.model(&constants, &parameters), column)
}

// What the bytes of an answer show: the set, whether multipliers are given, and the multiplier of each column. Any numbers may stand in
// it.
#[derive(Drop)]
pub struct ReasonNumbers {
    pub set: ColumnSet,
    pub given: bool,
    pub multipliers: [u16; MOST_COLUMNS],
}

impl ReasonNumbers {
    // Those of an answer that a call gives: each multiplier is 0 where none is given.
    pub fn of(answer: &Reason) -> ReasonNumbers
        ensures { reason_numbers result ≡ reason_shown (Ok answer.now) }
    {
        ReasonNumbers {
            set: answer.set,
            given: answer.multipliers.is_some(),
            multipliers: answer.multipliers.unwrap_or([0; MOST_COLUMNS]),
        }
    }
}

// The bytes of an answer: the set, whether multipliers are given, and two for each multiplier.
pub fn put_reason(out: &mut [u8], answer: &ReasonNumbers) -> Result<(), Refusal>
    ensures { PutOver reason_length (reason_bytes (reason_numbers answer.now)) out.old (refusal_of result) out.new }
{
    if out.len() < REASON_LENGTH {
        return Err(Refusal::AreaShort);
    }
    put_set(out, answer.set)?;
    out[SET_BYTES] = u8::from(answer.given);
    put_each(&mut out[SET_BYTES + 1..], &answer.multipliers)
}
