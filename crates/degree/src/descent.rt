// The descent: levels and heights that bound every total, lowered round by round until an assignment on the tight entries reaches them.
ghost use Rattle.std.specs.Prelude.{ℕ, Ok, ◌+◌, ◌<◌, ◌≤◌, ◌≡◌, get_or};
ghost use Rattle.counting.specs.Sets.{◌∈◌};
ghost use Rattle.columns.specs.Columns.{members};
ghost use Rattle.columns.specs.ColumnSets.{whole};
ghost use Rattle.rank.specs.Modulus.{field_of};
ghost use Rattle.rank.specs.Layered.Rank.{rank, sum};
ghost use Rattle.rank.specs.Totals.{total};
ghost use Rattle.degrees.specs.Dynamics.{layered};
ghost use Rattle.exchange.specs.Solve.{SolvedBy};
ghost use Rattle.degree.specs.Shown.{degree_shown};
ghost use Rattle.degree.specs.Answers.{DegreeAnswered};
ghost use Rattle.degree.specs.Code.{ConstantsShown, Summed};
ghost use Rattle.degree.specs.States.{dynamic_of, powers_of, ReadyModel, DescendingModel, tight_model};

use crate::state::{Bounds, PoweredModel};
use crate::{Degree, levels};
use columns::ColumnSet;
use exchange::{Solution, reduce, solve};
use limits::MOST_CONSTANTS;
use models::LentModel;

// The solver's answer to the tight part.
fn solve_tight(model: &PoweredModel<'_>, constants: &[u16], bounds: &Bounds) -> Solution
    requires { (Q : ℕ → ℕ → (field_of model.now.p).F) × (k : ℕ) × DescendingModel model.now Q constants.now bounds.now k }
    ensures { (Q : ℕ → ℕ → (field_of model.now.p).F) (k : ℕ) → DescendingModel model.now Q constants.now bounds.now k → SolvedBy (tight_model model.now Q constants.now bounds.now) result }
{
    let all = ColumnSet::below(model.n);
    let weights = levels::weights(all, model.powers.columns, &bounds.heights);
    let mut tight = [0u16; MOST_CONSTANTS];
    levels::tight_constants(&mut tight, model, constants, &weights, &bounds.levels);
    let rows = levels::tight_parameters(model, bounds);
    let part = LentModel::unnumbered(model.p, model.n, model.a, model.b, &tight, &rows);
    let Some(s) = solve(&part, all) else {
        unreachable!()
    };
    s
}

// A round, on the short set of the tight part: the rows are reduced at its tight entries; the levels of the rows that touch it and the
// heights on it are raised. How far.
fn turn(
    model: &PoweredModel<'_>,
    constants: &mut [u16],
    bounds: &mut Bounds,
    short: ColumnSet,
) -> u16
    requires { ((x : ℕ) → x ∈ members (whole short) → x < model.now.n) × ((Q : ℕ → ℕ → (field_of model.now.p).F) × (k : ℕ) × DescendingModel model.now Q constants.old bounds.old k × (sum (tight_model model.now Q constants.old bounds.old) (members (whole short)) < model.now.n)) }
    ensures { (Q : ℕ → ℕ → (field_of model.now.p).F) (k : ℕ) → DescendingModel model.now Q constants.old bounds.old k → sum (tight_model model.now Q constants.old bounds.old) (members (whole short)) < model.now.n → (1 ≤ result) × DescendingModel model.now Q constants.new bounds.new (k + result) }
{
    let weights = levels::weights(short, model.powers.columns, &bounds.heights);
    reduce(
        model.p,
        model.n,
        model.a,
        &weights,
        &bounds.levels,
        constants,
    );
    let tops = levels::tops(model, constants, &weights, &bounds.heights, short);
    let rise = levels::rise(&bounds.levels, &tops);
    levels::raise_levels(&mut bounds.levels, &tops, rise, model.n);
    levels::raise_heights(&mut bounds.heights, short, rise);
    rise
}

// The answer, from levels and heights that an assignment on the tight entries reaches.
fn found(model: &PoweredModel<'_>, bounds: &Bounds, s: Solution) -> Degree
    requires { Summed model.now.n model.now.a model.now.powers.rows.now bounds.now.levels bounds.now.heights × ((d : ℕ) × (d < 65536) × (d + total model.now.n (λ x. get_or bounds.now.heights x 0) ≡ total model.now.a (λ i. get_or model.now.powers.rows.now i 0) + total model.now.n (λ q. get_or bounds.now.levels q 0))) }
    ensures { (result.constants ≡ s.constants) × (result.rows ≡ s.rows) × ((d : ℕ) → d + total model.now.n (λ x. get_or bounds.now.heights x 0) ≡ total model.now.a (λ i. get_or model.now.powers.rows.now i 0) + total model.now.n (λ q. get_or bounds.now.levels q 0) → result.degree ≡ d) }
{
    let rows = s.rows;
    let most = levels::sum_powers(model.powers.rows, model.a)
        + levels::sum(&bounds.levels, model.n);
    Degree {
        degree: (most - levels::sum(&bounds.heights, model.n)) as u16,
        constants: s.constants,
        rows,
    }
}

// The first levels and heights, over which every total stays.
fn first_bounds(model: &PoweredModel<'_>, constants: &[u16]) -> Bounds
    requires { ReadyModel model.now constants.now }
    ensures { (Q : ℕ → ℕ → (field_of model.now.p).F) → ConstantsShown model.now.p model.now.n model.now.a Q constants.now → rank (layered (dynamic_of model.now Q)) ≡ model.now.n → DescendingModel model.now Q constants.now result 0 }
{
    let heights = levels::first_heights(model);
    let all = ColumnSet::below(model.n);
    let weights = levels::weights(all, model.powers.columns, &heights);
    let levels = levels::tops(model, constants, &weights, &heights, all);
    Bounds { levels, heights }
}

// The degree, and an assignment that reaches it. What the rounds have raised is counted, and is never much, so they end.
pub fn descend(model: &PoweredModel<'_>, constants: &mut [u16]) -> Degree
    requires { ReadyModel model.now constants.old × ((Q : ℕ → ℕ → (field_of model.now.p).F) × ConstantsShown model.now.p model.now.n model.now.a Q constants.old × (rank (layered (dynamic_of model.now Q)) ≡ model.now.n)) }
    ensures { (Q : ℕ → ℕ → (field_of model.now.p).F) → ConstantsShown model.now.p model.now.n model.now.a Q constants.old → rank (layered (dynamic_of model.now Q)) ≡ model.now.n → DegreeAnswered (layered (dynamic_of model.now Q)) (powers_of model.now) (degree_shown (Ok result)) }
{
    let mut bounds = first_bounds(model, constants);
    let mut risen: u32 = 0;
    loop {
        let s = solve_tight(model, constants, &bounds);
        if s.rank == model.n {
            return found(model, &bounds, s);
        }
        risen = risen + u32::from(turn(model, constants, &mut bounds, s.short));
    }
}
