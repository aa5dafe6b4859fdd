// The mixed rank call: row i is the sum of constant row i and parameter row i. It is answered through the layered form.
#![tactic(auto)]

ghost use Rattle.std.specs.Prelude.{◌≡◌, ◌↔◌, true, false, ℕ, ◌+◌, ◌*◌, ◌<◌, ◌≤◌, length, get_or};
ghost use Rattle.limits.specs.Limits.{most_columns, most_rows, most_constants};
ghost use Rattle.counting.specs.Sets.{◌∈◌};
ghost use Rattle.columns.specs.Columns.{members};
ghost use Rattle.columns.specs.ColumnSets.{whole, row_numbers};
ghost use Rattle.format.specs.Refused.{refusal_of};
ghost use Rattle.mixed.specs.MixedForm.{form_entry, form_row, serves};
ghost use Rattle.mixed.specs.Shown.{mixed_shown};
ghost use Rattle.mixed.specs.MixedAnswers.{mixed_model_refusal, MixedModelCall, MixedFileCall};

use columns::{ColumnSet, MOST_WORDS};
use format::{Refusal, judge_model};
use layered::verdict_of;
use limits::{MOST_COLUMNS, MOST_CONSTANTS, MOST_ROWS, NO_COLUMN};
use loader::read_rows;
use models::{LentModel, Verdict};

// The verdict; the rank; rows I and columns J that reach it; and the short set of the layered form.
#[derive(Clone, Copy)]
pub struct MixedAnswer {
    pub verdict: Verdict,
    pub rank: u8,
    pub rows: ColumnSet,
    pub columns: ColumnSet,
    pub short: ColumnSet,
}

// Why a mixed question is refused, if it is.
fn judge_mixed(model: &LentModel<'_>) -> Result<(), Refusal>
    ensures { refusal_of result ≡ mixed_model_refusal model.now }
{
    judge_model(model)?;
    if model.a != model.b {
        return Err(Refusal::NotMixed);
    }
    if model.a + model.n > MOST_COLUMNS {
        return Err(Refusal::NotMixed);
    }
    Ok(())
}

// Entry k of the form's constants, row by row: the unit matrix, and behind it the constants.
fn entry_of_form(constants: &[u16], m: usize, n: usize, k: usize) -> u16
    requires { (m * n ≤ length constants.now) × (m + n ≤ most_columns) × (k < m * (m + n)) }
    ensures { result ≡ form_entry m n constants.now k }
{
    let width = m + n;
    let i = k / width;
    let j = k % width;
    if j < m {
        if i == j {
            return 1;
        }
        return 0;
    }
    let at = i * n + (j - m);
    constants[at]
}

fn fill_constants(form: &mut [u16; MOST_CONSTANTS], constants: &[u16], m: usize, n: usize)
    requires { (length form.old ≡ most_constants) × (m * n ≤ length constants.now) × (m ≤ most_rows) × (m + n ≤ most_columns) }
    ensures { (length form.new ≡ most_constants) × ((k : ℕ) → k < m * (m + n) → get_or form.new k 0 ≡ form_entry m n constants.now k) }
{
    let all = m * (m + n);
    for k in 0..all {
        form[k] = entry_of_form(constants, m, n, k);
    }
}

// Parameter row i of the form: a parameter at column i, and its own parameters m columns up.
fn fill_parameters(words: &mut [u64], parameters: &[u64], m: usize)
    requires { m ≤ length (row_numbers words.old) }
    ensures { (length (row_numbers words.new) ≡ length (row_numbers words.old)) × ((i : ℕ) → i < m → members (get_or (row_numbers words.new) i 0) ≡ form_row m (members (get_or (row_numbers parameters.now) i 0)) i) }
{
    for i in 0..m {
        let own = columns::row(parameters, i).raised(m);
        columns::put_row(words, i, own.with(i));
    }
}

// Whether the column y that a row of the form shows is an original one.
fn serves_original(y: u8, m: usize) -> bool
    ensures { (result ≡ true → serves m y) × (result ≡ false → serves m y → ⊥) }
{
    if usize::from(y) < m {
        return false;
    }
    y < NO_COLUMN
}

// The rows below m that serve no original column.
fn idle_rows(rows: &[u8; MOST_ROWS], m: usize) -> ColumnSet
    requires { m ≤ most_rows }
    ensures { (i : ℕ) → (i ∈ members (whole result)) ↔ ((i < m) × (serves m (get_or rows.now i 0) → ⊥)) }
{
    let mut idle = ColumnSet::empty();
    for i in 0..m {
        if !serves_original(rows[i], m) {
            idle = idle.with(i);
        }
    }
    idle
}

// The answer to a mixed model. Its parameters' numbers are judged and no more.
pub fn mixed_rank(model: &LentModel<'_>) -> Result<MixedAnswer, Refusal>
    ensures { MixedModelCall model.now (mixed_shown result) }
{
    judge_mixed(model)?;
    let n = model.n;
    let a = model.a;
    let mut constants = [0u16; MOST_CONSTANTS];
    fill_constants(&mut constants, model.constants, a, n);
    let mut parameters = [0u64; MOST_WORDS];
    fill_parameters(&mut parameters, model.parameters, a);
    let form = LentModel::unnumbered(model.p, a + n, a, a, &constants, &parameters);
    let Some(s) = exchange::solve(&form, ColumnSet::below(a + n)) else {
        unreachable!()
    };
    let rank = s.rank - a;
    let verdict = verdict_of(rank, n, a);
    let reached = rank as u8;
    let rows = idle_rows(&s.rows, a);
    let columns = s.constants.lowered(a);
    Ok(MixedAnswer {
        verdict,
        rank: reached,
        rows,
        columns,
        short: s.short,
    })
}

// The answer to the mixed model in a file, or the refusal of the file or of the question.
pub fn mixed_file(file: &[u8]) -> Result<MixedAnswer, Refusal>
    ensures { MixedFileCall file.now (mixed_shown result) }
{
    let mut constants = [0u16; MOST_CONSTANTS];
    let mut parameters = [0u64; MOST_WORDS];
    let sizes = read_rows(file, &mut constants, &mut parameters)?;
    mixed_rank(&sizes.model(&constants, &parameters))
}
