// Elimination and matching: the answer to a layered model, by placing one column after another on a row of its own.
// Over the column sets of `columns`: the tableau, the search of the exchange graph, seats, and the offering of columns; how a
// column depends on others, read off the tableau; what reaches each column in the final state; and rows of constants reduced, each at
// an entry that stands at its level. Code outside sees four calls.
#![tactic(auto)]

ghost use Rattle.std.specs.Prelude.{◌≡◌, ◌↔◌, true, ℕ, ◌<◌};
ghost use Rattle.residue.specs.Arithmetic.{InverseTable};
ghost use Rattle.rank.specs.Modulus.{field_of};
ghost use Rattle.counting.specs.Sets.{◌∈◌};
ghost use Rattle.columns.specs.Columns.{members, within};
ghost use Rattle.columns.specs.ColumnSets.{whole};
ghost use Rattle.exchange.specs.Solve.{SolvedBy, Solves};
ghost use Rattle.exchange.specs.DependenceCall.{outcome_of, multipliers_of, DependenceShown, DependenceCall};
ghost use Rattle.exchange.specs.ReachCall.{ReachShown, ReachCall};
ghost use Rattle.exchange.specs.Reduction.{ReduceCall};
ghost use Rattle.exchange.specs.Code.Held.{model_of, ShowsRows, ShowsConstants};
ghost use Rattle.exchange.specs.Code.State.{rows_of, Fresh, Completed};

mod admission;
mod arcs;
mod offering;
mod reading;
mod reduction;
mod search;
mod seating;
mod sizes;
mod state;
mod tableau;

use columns::{ColumnSet, MOST_WORDS};
use limits::{MOST_COLUMNS, MOST_ROWS};
use models::LentModel;
use search::Found;
use sizes::{CELLS, LINES};
use state::{Admitted, State};

// The answer to a layered model: its rank, the placed columns, those of them on the constant side, the short set, and the column
// of each parameter row (`NO_COLUMN` for none).
#[derive(Drop)]
pub struct Solution {
    pub rank: usize,
    pub placed: ColumnSet,
    pub constants: ColumnSet,
    pub short: ColumnSet,
    pub rows: [u8; MOST_ROWS],
}

// The answer over a state in which nothing has been offered.
fn answer(state: &mut State, model: &Admitted, offered: ColumnSet) -> Solution
    requires { Fresh model.now state.old × (within model.now.n (whole offered) ≡ true) }
    ensures { (G : Completed model.now) → ShowsConstants model.now.p model.now.n model.now.a model.now.b (rows_of model.now) G state.old.cells → ((x : ℕ) → (x ∈ members (whole offered)) ↔ ((x < model.now.n) × (x ∈ G.E))) → SolvedBy (model_of model.now.p model.now.n model.now.a model.now.b (rows_of model.now) G) result }
{
    let placed = offering::offer_all(state, model, offered);
    let missing = offered.difference(placed);
    let Found::Reached(short) = search::search(state, model, missing) else {
        unreachable!()
    };
    let rank = placed.size();
    let side = offering::constant_side(state, model);
    let rows = offering::row_columns(state, model);
    Solution {
        rank,
        placed,
        constants: side,
        short,
        rows,
    }
}

// The answer to a model, with the columns of a set offered; none where the model is not admissible.
pub fn solve(model: &LentModel, offered: ColumnSet) -> Option<Solution>
    ensures { Solves model.now offered result }
{
    if !admission::is_admissible(model, offered) {
        return None;
    }
    let admitted = Admitted {
        p: model.p as u16,
        n: model.n,
        a: model.a,
        b: model.b,
        parameters: model.parameters,
        inverses: residue::inverses_of(model.p),
    };
    let mut state = State {
        cells: [0; CELLS],
        owner: [model.n as u8; LINES],
    };
    tableau::fill(&mut state.cells, model.constants, model.n, model.a);
    Some(answer(&mut state, &admitted, offered))
}

// How a column depends on held columns: it does not; it does, with a multiplier for each column, 0 where it is not held; or they are
// dependent themselves, whatever the column.
#[derive(Drop)]
pub enum Dependence {
    Independent,
    DependsOn([u16; MOST_COLUMNS]),
    HeldDependent,
}

impl Dependence {
    // The number of the outcome: 2 where the held columns are dependent, 1 where the column depends on them, 0 where it does not.
    pub fn outcome(&self) -> u8
        ensures { result ≡ outcome_of self.now }
    {
        match self {
            Dependence::Independent => 0,
            Dependence::DependsOn(_) => 1,
            Dependence::HeldDependent => 2,
        }
    }

    // The multiplier of each column, 0 where none is given.
    pub fn multipliers(&self) -> [u16; MOST_COLUMNS]
        ensures { result ≡ multipliers_of self.now }
    {
        match self {
            Dependence::DependsOn(multipliers) => *multipliers,
            _ => [0; MOST_COLUMNS],
        }
    }
}

// How the column x depends on the held columns, over a state in which nothing has been offered and a model without parameter rows:
// these columns are placed, and what the tableau then has in the column is read off.
fn read_column(state: &mut State, model: &Admitted, held: ColumnSet, x: usize) -> Dependence
    requires { Fresh model.now state.old × (model.now.b ≡ 0) × (within model.now.n (whole held) ≡ true) × (x < model.now.n) }
    ensures { (Q : ℕ → ℕ → (field_of model.now.p).F) → ShowsRows model.now.p model.now.n model.now.a Q state.old.cells → DependenceShown model.now.p model.now.n model.now.a Q (members (whole held)) x (outcome_of result) (multipliers_of result) }
{
    let placed = offering::offer_all(state, model, held);
    let missing = held.difference(placed);
    if !missing.is_empty() {
        return Dependence::HeldDependent;
    }
    if !reading::is_zero_where_free(state, model, x) {
        return Dependence::Independent;
    }
    Dependence::DependsOn(reading::entries_by_owner(state, model, x))
}

// How the column x depends on the held columns, over the constants of a model, whose parameter rows play no part; none where the
// constants are not admissible, or the column is not below n.
pub fn column_dependence(model: &LentModel, held: ColumnSet, x: usize) -> Option<Dependence>
    ensures { DependenceCall model.now held x result }
{
    if !admission::is_askable(model, held, x) {
        return None;
    }
    let admitted = Admitted {
        p: model.p as u16,
        n: model.n,
        a: model.a,
        b: 0,
        parameters: &[],
        inverses: residue::inverses_of(model.p),
    };
    let mut state = State {
        cells: [0; CELLS],
        owner: [model.n as u8; LINES],
    };
    tableau::fill(&mut state.cells, model.constants, model.n, model.a);
    Some(read_column(&mut state, &admitted, held, x))
}

// What reaches each column, over a state in which nothing has been offered. A column that touches a free row is put before all, and
// every column before those that are not placed.
fn reach_rows(state: &mut State, model: &Admitted, offered: ColumnSet) -> [u64; MOST_WORDS]
    requires { Fresh model.now state.old × (within model.now.n (whole offered) ≡ true) }
    ensures { (G : Completed model.now) → ShowsConstants model.now.p model.now.n model.now.a model.now.b (rows_of model.now) G state.old.cells → ((x : ℕ) → (x ∈ members (whole offered)) ↔ ((x < model.now.n) × (x ∈ G.E))) → ReachShown (model_of model.now.p model.now.n model.now.a model.now.b (rows_of model.now) G) result }
{
    let placed = offering::offer_all(state, model, offered);
    let missing = offered.difference(placed);
    let mut rows = [0u64; MOST_WORDS];
    relation::join(&mut rows, missing, offered);
    let ends = arcs::link(state, model, offered, &mut rows);
    relation::join(&mut rows, offered, ends);
    relation::close(&mut rows, offered);
    rows
}

// What reaches each column of a model in the final state, with the columns of a set offered; none where the model is not admissible.
// Row x of the area, of an offered column: x itself, every column from which arcs lead to x, every column from which they lead to a
// free row and, where arcs lead to x from an unplaced column, every offered one. These are the columns that share the block of x or
// must come before it. The other rows are empty.
pub fn column_reach(model: &LentModel, offered: ColumnSet) -> Option<[u64; MOST_WORDS]>
    ensures { ReachCall model.now offered result }
{
    if !admission::is_admissible(model, offered) {
        return None;
    }
    let admitted = Admitted {
        p: model.p as u16,
        n: model.n,
        a: model.a,
        b: model.b,
        parameters: model.parameters,
        inverses: residue::inverses_of(model.p),
    };
    let mut state = State {
        cells: [0; CELLS],
        owner: [model.n as u8; LINES],
    };
    tableau::fill(&mut state.cells, model.constants, model.n, model.a);
    Some(reach_rows(&mut state, &admitted, offered))
}

// The constants, row by row, after each row has been reduced at its first entry that stands at its level: where a column's weight is
// the row's level and the row is not zero there. Whether the call was taken; where not, nothing has changed.
pub fn reduce(
    p: u32,
    n: usize,
    a: usize,
    weights: &[u16],
    levels: &[u16],
    constants: &mut [u16],
) -> bool
    ensures { ReduceCall p n a weights.now levels.now constants.old result constants.new }
{
    if !admission::is_reducible(p, n, a, weights, levels, constants) {
        return false;
    }
    let mut t = [0u16; CELLS];
    tableau::fill(&mut t, constants, n, a);
    let admitted = Admitted {
        p: p as u16,
        n,
        a,
        b: 0,
        parameters: &[],
        inverses: residue::inverses_of(p),
    };
    reduction::reduce_rows(&mut t, &admitted, weights, levels);
    tableau::copy_back(&t, constants, n, a);
    true
}
