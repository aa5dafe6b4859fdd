// A model handed over without a file, judged.
ghost use Rattle.std.specs.Prelude.{◌≡◌, true, ◌*◌, ◌≤◌, length, take};
ghost use Rattle.columns.specs.ColumnSets.{row_numbers};
ghost use Rattle.limits.specs.Limits.{most_columns, most_rows};
ghost use Rattle.models.specs.Lent.{lent_numbers};
ghost use Rattle.format.specs.Refusals.{numbers_room, number_test};
ghost use Rattle.format.specs.Refused.{refusal_of, model_refusal};

use crate::content::{constants_below, parameters_within, prime_within, sizes_within};
use crate::numbers::numbers_once;
use crate::refusals::Refusal;
use models::LentModel;

// Whether an area of numbers holds b rows of n; an unnumbered model needs none.
fn numbers_held(n: usize, b: usize, numbers: Option<&[u16]>) -> bool
    requires { (n ≤ most_columns) × (b ≤ most_rows) }
    ensures { result ≡ numbers_room (b * n) (lent_numbers numbers.entry) }
{
    match numbers {
        None => true,
        Some(lent) => b * n <= lent.len(),
    }
}

// Whether no number is met twice; an unnumbered model has none.
fn numbers_apart(n: usize, b: usize, parameters: &[u64], numbers: Option<&[u16]>) -> bool
    requires { (n ≤ most_columns) × (b ≤ length (row_numbers parameters.now)) × (numbers_room (b * n) (lent_numbers numbers) ≡ true) }
    ensures { result ≡ number_test n (take b (row_numbers parameters.now)) (lent_numbers numbers.entry) }
{
    match numbers {
        None => true,
        Some(lent) => numbers_once(parameters, lent, n, b),
    }
}

// Why a model handed over is refused, if it is. Its constants are a rows of n each, one after the other; where it is numbered, its numbers
// are b rows of n.
pub fn judge_model(model: &LentModel<'_>) -> Result<(), Refusal>
    ensures { refusal_of result ≡ model_refusal model.now }
{
    let LentModel {
        p,
        n,
        a,
        b,
        constants,
        parameters,
        numbers,
    } = *model;
    if !prime_within(p) {
        return Err(Refusal::NotPrime);
    }
    if !sizes_within(n, a, b) {
        return Err(Refusal::SizesBeyond);
    }
    let k = a * n;
    if constants.len() < k {
        return Err(Refusal::AreaShort);
    }
    if columns::rows(parameters) < b {
        return Err(Refusal::AreaShort);
    }
    if !numbers_held(n, b, numbers) {
        return Err(Refusal::AreaShort);
    }
    if !constants_below(&constants[..k], p) {
        return Err(Refusal::ConstantBeyond);
    }
    if !parameters_within(parameters, b, n) {
        return Err(Refusal::ParameterBeyond);
    }
    if !numbers_apart(n, b, parameters, numbers) {
        return Err(Refusal::NumberTwice);
    }
    Ok(())
}
