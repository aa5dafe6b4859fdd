// The layered rank call: the answer to a model handed over, over all its columns or some of them, or in a file.
#![tactic(auto)]

ghost use Rattle.std.specs.Prelude.{◌≡◌, ◌≢◌, MatchOption};
ghost use Rattle.columns.specs.ColumnSets.{whole, row_numbers};
ghost use Rattle.models.specs.Verdicts.{verdict_code};
ghost use Rattle.rank.specs.Verdict.{verdict_number};
ghost use Rattle.format.specs.Refused.{refusal_of};
ghost use Rattle.layered.specs.Shown.{answer_shown};
ghost use Rattle.layered.specs.Answers.{offered_model_refusal, OfferedModelCall, LayeredModelCall, UnnumberedModelCall, LayeredFileCall};
ghost use Rattle.layered.specs.Beforehand.{beforehand, SolutionGiven};

use columns::{ColumnSet, MOST_WORDS};
use exchange::{Solution, solve};
use format::{Refusal, judge_model, parameters_within};
use limits::{LARGEST_PRIME, MOST_CONSTANTS, MOST_ROWS};
use loader::read_rows;
use models::{LentModel, Verdict};

// The verdict; the rank; the placed columns, those of them on the constant side, and the short set; and the column of each parameter row,
// or that it has none.
#[derive(Drop)]
pub struct Answer {
    pub verdict: Verdict,
    pub rank: u8,
    pub placed: ColumnSet,
    pub constants: ColumnSet,
    pub short: ColumnSet,
    pub rows: [u8; MOST_ROWS],
}

// The verdict on a rank, with so many columns and rows.
pub fn verdict_of(rank: usize, columns: usize, rows: usize) -> Verdict
    ensures { verdict_code result ≡ verdict_number rank columns rows }
{
    if rank != columns {
        return Verdict::Open;
    }
    if rank == rows {
        return Verdict::Determined;
    }
    if rank < rows {
        return Verdict::Surplus;
    }
    Verdict::Open
}

// The tests that the solver does not make.
fn passes_beforehand(model: &LentModel<'_>) -> bool
    ensures { result ≡ beforehand model.now.p model.now.n model.now.b (row_numbers model.now.parameters.now) }
{
    if model.p > LARGEST_PRIME {
        return false;
    }
    if model.n < 1 {
        return false;
    }
    parameters_within(model.parameters, model.b, model.n)
}

// The answer to a layered model. Numbers are judged and no more: parameters that are numbered apart are as independent as parameters
// without numbers.
pub fn layered_rank(model: &LentModel<'_>) -> Result<Answer, Refusal>
    ensures { LayeredModelCall model.now (answer_shown result) }
{
    match model.numbers {
        None => unnumbered_rank(model),
        Some(_) => {
            judge_model(model)?;
            unnumbered_rank(model)
        }
    }
}

// Why a model without its numbers, of which the columns of a set are offered, is refused, if it is: last, for a column that it does not have.
fn judge_offered(model: &LentModel<'_>, offered: ColumnSet) -> Result<(), Refusal>
    ensures { refusal_of result ≡ offered_model_refusal model.now (whole offered) }
{
    judge_model(&LentModel {
        numbers: None,
        ..*model
    })?;
    if !offered.within(model.n) {
        return Err(Refusal::ColumnBeyond);
    }
    Ok(())
}

// What the solver gives over the columns of a set, of a model that is not refused.
fn solution_of(model: &LentModel<'_>, offered: ColumnSet) -> Option<Solution>
    ensures { MatchOption result (offered_model_refusal model.now (whole offered) ≢ 0) (λ s. SolutionGiven model.now offered s) }
{
    if !passes_beforehand(model) {
        return None;
    }
    solve(model, offered)
}

// The answer to a model without its numbers over the columns of a set: no others are placed or short, and the verdict goes by their number.
// The solver judges most of it, so that an accepted model is judged once; a refused one is judged again for its number.
pub fn offered_rank(model: &LentModel<'_>, offered: ColumnSet) -> Result<Answer, Refusal>
    ensures { OfferedModelCall model.now (whole offered) (answer_shown result) }
{
    let Some(s) = solution_of(model, offered) else {
        judge_offered(model, offered)?;
        unreachable!()
    };
    let verdict = verdict_of(s.rank, offered.size(), model.a + model.b);
    let rank = s.rank as u8;
    let rows = s.rows;
    Ok(Answer {
        verdict,
        rank,
        placed: s.placed,
        constants: s.constants,
        short: s.short,
        rows,
    })
}

// The answer to a model without its numbers, over all its columns.
fn unnumbered_rank(model: &LentModel<'_>) -> Result<Answer, Refusal>
    ensures { UnnumberedModelCall model.now (answer_shown result) }
{
    offered_rank(model, ColumnSet::below(model.n))
}

// The answer to the layered model in a file, or the file's refusal.
pub fn layered_file(file: &[u8]) -> Result<Answer, Refusal>
    ensures { LayeredFileCall file.now (answer_shown result) }
{
    let mut constants = [0u16; MOST_CONSTANTS];
    let mut parameters = [0u64; MOST_WORDS];
    let sizes = read_rows(file, &mut constants, &mut parameters)?;
    unnumbered_rank(&sizes.model(&constants, &parameters))
}
