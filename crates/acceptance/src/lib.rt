// Whether a claim about a model is accepted, of a model handed over or in a file: a rank, an assignment and a column set that somebody
// else found. And the bytes of a claim and of the answer.
#![tactic(auto)]

ghost use Rattle.std.specs.Prelude.{◌≡◌, ◌<◌, ◌≤◌, ◌^◌, true, [], ◌↔◌, Ok};
ghost use Rattle.std.proofs.Math.Option.{none};
ghost use Rattle.limits.specs.Limits.{most_columns};
ghost use Rattle.columns.specs.Columns.{width, members, within};
ghost use Rattle.columns.specs.ColumnSets.{whole};
ghost use Rattle.models.specs.Lent.{constants_lent, rows_lent};
ghost use Rattle.listed_models.specs.ListedModel.{listed_model};
ghost use Rattle.rank.specs.Layered.Rank.{constant_rank, sum};
ghost use Rattle.format.specs.Refused.{refusal_of};
ghost use Rattle.format.specs.TestLaws.{Accepted};
ghost use Rattle.host.specs.AreaCall.{PutOver};
ghost use Rattle.acceptance.specs.Shown.{acceptance_shown};
ghost use Rattle.acceptance.specs.Answers.{ClaimAccepted, AcceptanceModelCall, AcceptanceFileCall};
ghost use Rattle.acceptance.specs.Bytes.{ClaimRead, acceptance_length, acceptance_bytes};
ghost use Rattle.acceptance.specs.Code.{row_serves, RowSeated, RowsSeated};

use columns::{ColumnSet, MOST_WORDS};
use exchange::solve;
use format::{Refusal, judge_model};
use limits::{MOST_CONSTANTS, MOST_ROWS, NO_COLUMN, SET_BYTES};
use loader::read_rows;
use models::LentModel;
use touching::touching_rows;

// A claim: a rank; an assignment, which is the columns on the constant side and the column of each parameter row, or that it has none;
// and a column set.
#[derive(Drop)]
pub struct Claim {
    pub rank: u8,
    pub constants: ColumnSet,
    pub rows: [u8; MOST_ROWS],
    pub set: ColumnSet,
}

// How many bytes a claim takes, and where its parts stand behind the rank.
pub const CLAIM_LENGTH: usize = CLAIM_SET + SET_BYTES;

const CLAIM_SIDE: usize = 1;

const CLAIM_ROWS: usize = CLAIM_SIDE + SET_BYTES;

const CLAIM_SET: usize = CLAIM_ROWS + MOST_ROWS;

// How many bytes an answer takes.
pub const ACCEPTANCE_LENGTH: usize = 1;

// Whether parameter row r can serve column c, beside columns that have a seat: the model has both, and a parameter there, and the
// column has no seat yet.
fn can_serve(model: &LentModel<'_>, seated: ColumnSet, r: usize, c: usize) -> bool
    ensures { result ≡ row_serves model.now.n model.now.b (rows_lent model.now) (members (whole seated)) r c }
{
    r < model.b
        && c < model.n
        && !seated.contains(c)
        && columns::row(model.parameters, r).contains(c)
}

// All columns that have a seat once the column that a row of a claim names gets its own, beside columns that have one; none where the
// row cannot serve it. Where the row names no column, nothing changes.
fn seat_row(model: &LentModel<'_>, seated: ColumnSet, r: usize, c: usize) -> Option<ColumnSet>
    requires { model.now.n ≤ most_columns }
    ensures { RowSeated model.now.n model.now.b (rows_lent model.now) (members (whole seated)) r c result }
{
    if c == usize::from(NO_COLUMN) {
        return Some(seated);
    }
    if !can_serve(model, seated, r, c) {
        return None;
    }
    Some(seated.with(c))
}

// All columns that have a seat once those that the rows of a claim name get theirs, beside the columns of its side; none where a row
// cannot serve its column.
fn seat_rows(model: &LentModel<'_>, side: ColumnSet, rows: &[u8; MOST_ROWS]) -> Option<ColumnSet>
    requires { model.now.n ≤ most_columns }
    ensures { RowsSeated model.now.n model.now.b (rows_lent model.now) side rows.now result }
{
    let mut seated = side;
    for (r, c) in rows.iter().enumerate() {
        seated = seat_row(model, seated, r, usize::from(*c))?;
    }
    Some(seated)
}

// The rank of the constants in a set of columns: that of a model which has no parameter rows and is offered these columns.
fn constant_rank(model: &LentModel<'_>, set: ColumnSet) -> usize
    requires { Accepted model.now.p model.now.n model.now.a 0 (constants_lent model.now) [] none × (within model.now.n (whole set) ≡ true) }
    ensures { result ≡ constant_rank (listed_model model.now.p model.now.n model.now.a 0 (constants_lent model.now) []) (members (whole set)) }
{
    let alone = LentModel::unnumbered(model.p, model.n, model.a, 0, model.constants, &[]);
    let Some(s) = solve(&alone, set) else {
        unreachable!()
    };
    s.rank
}

// The sum of a set of columns.
fn set_sum(model: &LentModel<'_>, set: ColumnSet) -> usize
    requires { Accepted model.now.p model.now.n model.now.a model.now.b (constants_lent model.now) (rows_lent model.now) none × (within model.now.n (whole set) ≡ true) }
    ensures { (result ≡ sum (listed_model model.now.p model.now.n model.now.a model.now.b (constants_lent model.now) (rows_lent model.now)) (members (whole set))) × (whole set < 2 ^ width) }
{
    let rank = constant_rank(model, set);
    let touched = touching_rows(model.parameters, model.n, model.b, set);
    rank + touched + (model.n - set.size())
}

// Whether the claim holds of a model that is judged. The cheap tests come first; the constants of the side and of the set are eliminated
// once each; without parameter rows no column ever moves to let another in.
fn holds(model: &LentModel<'_>, claim: &Claim) -> bool
    requires { Accepted model.now.p model.now.n model.now.a model.now.b (constants_lent model.now) (rows_lent model.now) none }
    ensures { (result ≡ true) ↔ ClaimAccepted (listed_model model.now.p model.now.n model.now.a model.now.b (constants_lent model.now) (rows_lent model.now)) claim.now }
{
    let n = model.n;
    let rank = usize::from(claim.rank);
    let side = claim.constants;
    let set = claim.set;
    if !side.within(n) {
        return false;
    }
    if !set.within(n) {
        return false;
    }
    let Some(seated) = seat_rows(model, side, &claim.rows) else {
        return false;
    };
    if seated.size() != rank {
        return false;
    }
    if constant_rank(model, side) != side.size() {
        return false;
    }
    set_sum(model, set) == rank
}

// Whether the claim is accepted, of a layered model. Numbers are judged and no more.
pub fn model_acceptance(model: &LentModel<'_>, claim: &Claim) -> Result<bool, Refusal>
    ensures { AcceptanceModelCall model.now claim.now (acceptance_shown result) }
{
    judge_model(model)?;
    Ok(holds(model, claim))
}

// The same of the model in a file, or the file's refusal.
pub fn file_acceptance(file: &[u8], claim: &Claim) -> Result<bool, Refusal>
    ensures { AcceptanceFileCall file.now claim.now (acceptance_shown result) }
{
    let mut constants = [0u16; MOST_CONSTANTS];
    let mut parameters = [0u64; MOST_WORDS];
    let sizes = read_rows(file, &mut constants, &mut parameters)?;
    Ok(holds(&sizes.model(&constants, &parameters), claim))
}

// The claim that bytes show; where they are too few, that of rank 0 which places nothing and has no column set.
pub fn read_claim(bytes: &[u8]) -> Claim
    ensures { ClaimRead bytes.now result }
{
    if bytes.len() < CLAIM_LENGTH {
        return Claim {
            rank: 0,
            constants: ColumnSet::empty(),
            rows: [NO_COLUMN; MOST_ROWS],
            set: ColumnSet::empty(),
        };
    }
    let constants = ColumnSet::of_bytes(&bytes[CLAIM_SIDE..CLAIM_ROWS]);
    let mut rows = [NO_COLUMN; MOST_ROWS];
    rows.copy_from_slice(&bytes[CLAIM_ROWS..CLAIM_SET]);
    let set = ColumnSet::of_bytes(&bytes[CLAIM_SET..CLAIM_LENGTH]);
    Claim {
        rank: bytes[0],
        constants,
        rows,
        set,
    }
}

// The byte of an answer: 1 where the claim is accepted, 0 where it is not.
pub fn put_acceptance(out: &mut [u8], accepted: bool) -> Result<(), Refusal>
    ensures { PutOver acceptance_length (acceptance_bytes (acceptance_shown (Ok accepted))) out.old (refusal_of result) out.new }
{
    if out.len() < ACCEPTANCE_LENGTH {
        return Err(Refusal::AreaShort);
    }
    out[0] = u8::from(accepted);
    Ok(())
}
