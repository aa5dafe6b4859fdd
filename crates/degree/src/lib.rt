// The degree of a model's determinant in s, by the powers of its rows, columns and parameters, of a model handed over or in a file; one
// assignment that reaches it; and the bytes of the answer.
#![tactic(auto)]

ghost use Rattle.std.specs.Prelude.{◌≡◌, ◌≢◌, Ok, MatchOption, ℕ, ◌*◌, ◌<◌, ◌≤◌, ◌&&◌, leb, length, get_or};
ghost use Rattle.std.proofs.Math.Option.{none};
ghost use Rattle.limits.specs.Limits.{most_columns, most_rows, most_constants};
ghost use Rattle.columns.specs.ColumnSets.{row_numbers};
ghost use Rattle.rank.specs.Modulus.{field_of};
ghost use Rattle.degrees.specs.Dynamics.{layered};
ghost use Rattle.format.specs.Refused.{refusal_of};
ghost use Rattle.format.specs.TestLaws.{Accepted};
ghost use Rattle.host.specs.AreaCall.{PutOver};
ghost use Rattle.degree.specs.Shown.{degree_shown};
ghost use Rattle.degree.specs.Answers.{DegreeAsked, DegreeModelCall, DegreeFileCall};
ghost use Rattle.degree.specs.Bytes.{degree_length, degree_bytes};
ghost use Rattle.degree.specs.Code.{ConstantsShown, FirstRefusal};
ghost use Rattle.degree.specs.States.{dynamic_of, powers_of};

mod descent;
mod levels;
mod powers;
mod state;

use columns::{ColumnSet, MOST_WORDS};
use exchange::solve;
use format::{Refusal, judge_model, put_set};
use limits::{MOST_CONSTANTS, MOST_ROWS, NO_COLUMN, SET_BYTES};
use loader::read_rows;
use models::LentModel;
use state::PoweredModel;

// The degree; and an assignment that reaches it: the columns on the constant side, and the column of each parameter row,
// `NO_COLUMN` for the rows that the model does not have.
#[derive(Drop)]
pub struct Degree {
    pub degree: u16,
    pub constants: ColumnSet,
    pub rows: [u8; MOST_ROWS],
}

// Where the constant side starts, behind the degree, and behind it the columns of the parameter rows.
const SET_AT: usize = 2;

const ROWS_AT: usize = SET_AT + SET_BYTES;

// How many bytes an answer takes.
pub const DEGREE_LENGTH: usize = ROWS_AT + MOST_ROWS;

// The powers of a model's constant rows, of its columns and, row by row, of its parameters.
#[derive(Clone, Copy)]
pub struct ModelPowers<'a> {
    pub rows: &'a [u8],
    pub columns: &'a [u8],
    pub parameters: &'a [u8],
}

// Whether the areas of powers hold what is read of them.
fn areas_hold(n: usize, a: usize, b: usize, powers: &ModelPowers<'_>) -> bool
    requires { (n ≤ most_columns) × (b ≤ most_rows) }
    ensures { result ≡ (leb a (length powers.now.rows.now) && leb n (length powers.now.columns.now) && leb (b * n) (length powers.now.parameters.now)) }
{
    a <= powers.rows.len() && n <= powers.columns.len() && b * n <= powers.parameters.len()
}

// The answer about a model that is judged, with areas of powers that hold them. The constants are changed.
fn ask(model: &PoweredModel<'_>, constants: &mut [u16]) -> Result<Degree, Refusal>
    requires { Accepted model.now.p model.now.n model.now.a model.now.b constants.old (row_numbers model.now.parameters.now) none × (model.now.a ≤ length model.now.powers.rows.now) × (model.now.n ≤ length model.now.powers.columns.now) × (model.now.b * model.now.n ≤ length model.now.powers.parameters.now) }
    ensures { (Q : ℕ → ℕ → (field_of model.now.p).F) → ConstantsShown model.now.p model.now.n model.now.a Q constants.old → DegreeAsked (layered (dynamic_of model.now Q)) (powers_of model.now) (degree_shown result) }
{
    if model.a + model.b != model.n {
        return Err(Refusal::NoDegree);
    }
    if !powers::are_low(model) {
        return Err(Refusal::NoDegree);
    }
    let all = ColumnSet::below(model.n);
    let lent = LentModel::unnumbered(
        model.p,
        model.n,
        model.a,
        model.b,
        constants,
        model.parameters,
    );
    let Some(s) = solve(&lent, all) else {
        unreachable!()
    };
    if s.rank != model.n {
        return Err(Refusal::NoDegree);
    }
    Ok(descent::descend(model, constants))
}

// The first k constants.
fn copied(constants: &[u16], k: usize) -> [u16; MOST_CONSTANTS]
    requires { (k ≤ length constants.now) × (k ≤ most_constants) }
    ensures { (i : ℕ) → i < k → get_or result i 0 ≡ get_or constants.now i 0 }
{
    let mut copy = [0u16; MOST_CONSTANTS];
    copy[..k].copy_from_slice(&constants[..k]);
    copy
}

// The refusal of p or of the sizes, which comes before the areas of powers.
fn refused_first(judged: Result<(), Refusal>) -> Option<Refusal>
    ensures { MatchOption result ((refusal_of judged ≢ 3) × (refusal_of judged ≢ 4)) (λ e. FirstRefusal e (refusal_of judged)) }
{
    let Err(refusal) = judged else {
        return None;
    };
    match refusal {
        Refusal::NotPrime => Some(refusal),
        Refusal::SizesBeyond => Some(refusal),
        _ => None,
    }
}

// The degree of a layered model. Numbers are judged and no more.
pub fn model_degree(model: &LentModel<'_>, powers: &ModelPowers<'_>) -> Result<Degree, Refusal>
    ensures { DegreeModelCall model.now powers.now.rows.now powers.now.columns.now powers.now.parameters.now (degree_shown result) }
{
    let judged = judge_model(model);
    if let Some(refusal) = refused_first(judged) {
        return Err(refusal);
    }
    if !areas_hold(model.n, model.a, model.b, powers) {
        return Err(Refusal::AreaShort);
    }
    judged?;
    let mut constants = copied(model.constants, model.a * model.n);
    let powered = PoweredModel {
        p: model.p,
        n: model.n,
        a: model.a,
        b: model.b,
        parameters: model.parameters,
        powers: *powers,
    };
    ask(&powered, &mut constants)
}

// The same of the model in a file, or the file's refusal.
pub fn file_degree(file: &[u8], powers: &ModelPowers<'_>) -> Result<Degree, Refusal>
    ensures { DegreeFileCall file.now powers.now.rows.now powers.now.columns.now powers.now.parameters.now (degree_shown result) }
{
    let mut constants = [0u16; MOST_CONSTANTS];
    let mut parameters = [0u64; MOST_WORDS];
    let sizes = read_rows(file, &mut constants, &mut parameters)?;
    if !areas_hold(sizes.n, sizes.a, sizes.b, powers) {
        return Err(Refusal::AreaShort);
    }
    let powered = PoweredModel {
        p: sizes.p,
        n: sizes.n,
        a: sizes.a,
        b: sizes.b,
        parameters: &parameters,
        powers: *powers,
    };
    ask(&powered, &mut constants)
}

// The bytes of an answer: the degree in two, the constant side, and the column of each parameter row.
pub fn put_degree(out: &mut [u8], answer: &Degree) -> Result<(), Refusal>
    ensures { PutOver degree_length (degree_bytes (degree_shown (Ok answer.now))) out.old (refusal_of result) out.new }
{
    if out.len() < DEGREE_LENGTH {
        return Err(Refusal::AreaShort);
    }
    out[..SET_AT].copy_from_slice(&answer.degree.to_le_bytes());
    put_set(&mut out[SET_AT..], answer.constants)?;
    out[ROWS_AT..DEGREE_LENGTH].copy_from_slice(&answer.rows);
    Ok(())
}
