// Whether a model can be taken: its sizes, its areas, its prime and its constants; and whether constants can, to be reduced.
ghost use Rattle.std.specs.Prelude.{◌≡◌, ◌*◌, ◌<◌, ◌≤◌, length};
ghost use Rattle.models.specs.Lent.{constants_lent, rows_lent};
ghost use Rattle.exchange.specs.Solve.{fitting, admits};
ghost use Rattle.columns.specs.ColumnSets.{whole};
ghost use Rattle.exchange.specs.DependenceCall.{askable};
ghost use Rattle.exchange.specs.Reduction.{reducible};
ghost use Rattle.exchange.specs.Code.Admission.{Largest};

use columns::ColumnSet;
use limits::{MOST_COLUMNS, MOST_ROWS};
use models::LentModel;

// The largest of some constants, and 0 of none. A loop with no way out but its end, which runs on vectors.
fn largest(constants: &[u16]) -> u16
    ensures { Largest constants.now (length constants.now) result }
{
    let mut top = 0;
    for v in constants {
        if *v > top {
            top = *v;
        }
    }
    top
}

// Whether the sizes are within their limits, and the areas hold as much.
#[tactic(auto, unfolding(crate::specs::Solve::fitting))]
fn fits(model: &LentModel) -> bool
    ensures { result ≡ fitting model.now.n model.now.a model.now.b (length (constants_lent model.now)) (length (rows_lent model.now)) }
{
    model.n <= MOST_COLUMNS
        && model.a <= MOST_ROWS
        && model.b <= MOST_ROWS
        && model.a * model.n <= model.constants.len()
        && model.b <= columns::rows(model.parameters)
}

#[tactic(auto, unfolding(crate::specs::Solve::admissible))]
pub fn is_admissible(model: &LentModel, offered: ColumnSet) -> bool
    ensures { result ≡ admits model.now offered }
{
    fits(model)
        && offered.within(model.n)
        && model.p < 65536
        && residue::is_prime(model.p)
        && u32::from(largest(&model.constants[..model.a * model.n])) < model.p
}

// Whether a column can be asked about: the constants can be taken, and the column is below n.
#[tactic(auto, using(crate::proofs::AdmissionLaws::no_parameters), unfolding(crate::specs::DependenceCall::askable))]
pub fn is_askable(model: &LentModel, held: ColumnSet, x: usize) -> bool
    ensures { result ≡ askable model.now.p model.now.n model.now.a (whole held) x (constants_lent model.now) }
{
    let constants_alone = LentModel {
        b: 0,
        parameters: &[],
        ..*model
    };
    x < model.n && is_admissible(&constants_alone, held)
}

// Whether rows can be reduced: the constants can be taken, and each column has a weight and each row a level.
#[tactic(auto, using(crate::proofs::AdmissionLaws::constants_admitted), unfolding(crate::specs::Reduction::reducible))]
pub fn is_reducible(
    p: u32,
    n: usize,
    a: usize,
    weights: &[u16],
    levels: &[u16],
    constants: &[u16],
) -> bool
    ensures { result ≡ reducible p n a weights.now levels.now constants.now }
{
    let constants_alone = LentModel {
        p,
        n,
        a,
        b: 0,
        constants,
        parameters: &[],
        numbers: None,
    };
    n <= weights.len() && a <= levels.len() && is_admissible(&constants_alone, ColumnSet::empty())
}
