// Whether powers are within their limit.
ghost use Rattle.std.specs.Prelude.{ℕ, ◌+◌, ◌*◌, ◌<◌, ◌≤◌, ◌≡◌, true, not, ◌||◌, leb, length, get_or};
ghost use Rattle.limits.specs.Limits.{most_columns};
ghost use Rattle.counting.specs.Sets.{all};
ghost use Rattle.columns.specs.Columns.{within};
ghost use Rattle.columns.specs.ColumnSets.{row_numbers};
ghost use Rattle.rank.specs.ListedModel.{parameter_at};
ghost use Rattle.degree.specs.Answers.{most_power};
ghost use Rattle.degree.specs.Code.{lists_low};

use crate::levels::parameter_top;
use crate::state::PoweredModel;
use limits::MOST_COLUMNS;

// The largest power.
pub const MOST_POWER: u8 = 15;

// Whether none of the first k powers is above the largest.
fn first_low(powers: &[u8], k: usize) -> bool
    requires { k ≤ length powers.now }
    ensures { result ≡ all k (λ i. leb (get_or powers.now i 0) most_power) }
{
    powers[..k].iter().all(|power| *power <= MOST_POWER)
}

// Whether no parameter has a power above the largest; where there is none, the power is not read.
fn parameters_low(model: &PoweredModel<'_>) -> bool
    requires { (model.now.n ≤ most_columns) × (model.now.b * model.now.n ≤ length model.now.powers.parameters.now) × ((r : ℕ) → r < model.now.b → within model.now.n (get_or (row_numbers model.now.parameters.now) r 0) ≡ true) }
    ensures { result ≡ all model.now.b (λ r. all model.now.n (λ x. not (parameter_at (row_numbers model.now.parameters.now) r x) || leb (get_or model.now.powers.parameters.now (r * model.now.n + x) 0) most_power)) }
{
    let heights = [0u16; MOST_COLUMNS];
    for r in 0..model.b {
        let row = columns::row(model.parameters, r);
        let top = parameter_top(row, model.powers.parameters, r * model.n, &heights);
        if top > u16::from(MOST_POWER) {
            return false;
        }
    }
    true
}

// Whether no power that is read is above the largest.
pub fn are_low(model: &PoweredModel<'_>) -> bool
    requires { (model.now.a ≤ length model.now.powers.rows.now) × (model.now.n ≤ length model.now.powers.columns.now) × (model.now.n ≤ most_columns) × (model.now.b * model.now.n ≤ length model.now.powers.parameters.now) × ((r : ℕ) → r < model.now.b → within model.now.n (get_or (row_numbers model.now.parameters.now) r 0) ≡ true) }
    ensures { result ≡ lists_low model.now.n model.now.a model.now.b (row_numbers model.now.parameters.now) model.now.powers.rows.now model.now.powers.columns.now model.now.powers.parameters.now }
{
    first_low(model.powers.rows, model.a)
        && first_low(model.powers.columns, model.n)
        && parameters_low(model)
}
