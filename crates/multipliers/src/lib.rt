// How a column depends on held columns, of a model handed over or in a file; and the bytes of the answer.
#![tactic(auto)]

ghost use Rattle.std.specs.Prelude.{[], ◌≡◌, Ok};
ghost use Rattle.std.proofs.Math.Option.{none};
ghost use Rattle.models.specs.Lent.{constants_lent};
ghost use Rattle.format.specs.Refused.{refusal_of};
ghost use Rattle.format.specs.TestLaws.{Accepted};
ghost use Rattle.host.specs.AreaCall.{PutOver};
ghost use Rattle.multipliers.specs.Shown.{multipliers_shown};
ghost use Rattle.multipliers.specs.Answers.{Asked, MultipliersModelCall, MultipliersFileCall};
ghost use Rattle.multipliers.specs.Bytes.{multipliers_length, multipliers_bytes, multipliers_numbers};

use columns::{ColumnSet, MOST_WORDS};
use exchange::{Dependence, column_dependence};
use format::{Refusal, judge_model};
use limits::{MOST_COLUMNS, MOST_CONSTANTS};
use loader::read_rows;
use models::LentModel;
use writer::put_each;

// How many bytes an answer takes.
pub const MULTIPLIERS_LENGTH: usize = 1 + 2 * MOST_COLUMNS;

// The answer to the question about a model that is judged; its parameter rows play no part.
fn ask(model: &LentModel<'_>, held: ColumnSet, column: usize) -> Result<Dependence, Refusal>
    requires { Accepted model.now.p model.now.n model.now.a 0 (constants_lent model.now) [] none }
    ensures { Asked model.now.p model.now.n model.now.a (constants_lent model.now) held column (multipliers_shown result) }
{
    if column >= model.n {
        return Err(Refusal::ColumnBeyond);
    }
    if !held.within(model.n) {
        return Err(Refusal::ColumnBeyond);
    }
    let Some(dependence) = column_dependence(model, held, column) else {
        unreachable!()
    };
    Ok(dependence)
}

// How the column depends on the held ones in a layered model. Parameter rows and numbers are judged and no more.
pub fn model_multipliers(
    model: &LentModel<'_>,
    held: ColumnSet,
    column: usize,
) -> Result<Dependence, Refusal>
    ensures { MultipliersModelCall model.now held column (multipliers_shown result) }
{
    judge_model(model)?;
    ask(model, held, column)
}

// The same in the model of a file, or the file's refusal.
pub fn file_multipliers(file: &[u8], held: ColumnSet, column: usize) -> Result<Dependence, Refusal>
    ensures { MultipliersFileCall file.now held column (multipliers_shown result) }
{
    let mut constants = [0u16; MOST_CONSTANTS];
    let mut parameters = [0u64; MOST_WORDS];
    let sizes = read_rows(file, &mut constants, &mut parameters)?;
    ask(&sizes.model(&constants, &parameters), held, column)
}

// What the bytes of an answer show: the number of the outcome, and the multipliers. Any numbers may stand in it.
#[derive(Drop)]
pub struct MultipliersNumbers {
    pub outcome: u8,
    pub multipliers: [u16; MOST_COLUMNS],
}

impl MultipliersNumbers {
    // Those of an answer that a call gives.
    pub fn of(given: &Dependence) -> MultipliersNumbers
        ensures { multipliers_numbers result ≡ multipliers_shown (Ok given.now) }
    {
        MultipliersNumbers {
            outcome: given.outcome(),
            multipliers: given.multipliers(),
        }
    }
}

// The bytes of an answer: the outcome, and two for each multiplier.
pub fn put_multipliers(out: &mut [u8], answer: &MultipliersNumbers) -> Result<(), Refusal>
    ensures { PutOver multipliers_length (multipliers_bytes (multipliers_numbers answer.now)) out.old (refusal_of result) out.new }
{
    if out.len() < MULTIPLIERS_LENGTH {
        return Err(Refusal::AreaShort);
    }
    out[0] = answer.outcome;
    put_each(&mut out[1..], &answer.multipliers)
}
