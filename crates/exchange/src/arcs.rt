// The arcs of the exchange graph, read off the tableau and the parameter rows into a relation between columns.
ghost use Rattle.std.specs.Prelude.{◌≡◌, true, ◌↔◌, ◌≢◌, ℕ, ◌<◌, ◌≤◌, length};
ghost use Rattle.counting.specs.Sets.{◌∈◌};
ghost use Rattle.limits.specs.Limits.{most_columns, most_rows};
ghost use Rattle.columns.specs.Columns.{members, within};
ghost use Rattle.columns.specs.ColumnSets.{whole};
ghost use Rattle.exchange.specs.Sizes.{cells};
ghost use Rattle.exchange.specs.Code.Cells.{cell};
ghost use Rattle.exchange.specs.Code.State.{lines_of, touched_by, owned_by, Roomy};
ghost use Rattle.exchange.specs.Code.Arcs.{Noted, Linked};

use crate::sizes::{CELLS, STRIDE};
use crate::state::{Admitted, State};
use columns::ColumnSet;

// The columns that a constant row touches.
fn support(t: &[u16; CELLS], n: usize, q: usize) -> ColumnSet
    requires { (length t.now ≡ cells) × (n ≤ most_columns) × (q < most_rows) }
    ensures { (x : ℕ) → (x ∈ members (whole result)) ↔ ((x < n) × (cell t.now q x ≢ 0)) }
{
    let mut set = ColumnSet::empty();
    for x in 0..n {
        if t[q * STRIDE + x] != 0 {
            set = set.with(x);
        }
    }
    set
}

// The columns that a row of either kind touches.
fn row_touches(state: &State, model: &Admitted, q: usize) -> ColumnSet
    requires { Roomy model.now state.now }
    ensures { (x : ℕ) → x < model.now.n → members (whole result) x ≡ touched_by model.now state.now q x }
{
    if q < model.a {
        return support(&state.cells, model.n, q);
    }
    columns::row(model.parameters, q - model.a)
}

// The columns that touch a row of the model go into the row of its owner y, or among the ends where it is free.
fn note(into: &mut [u64], ends: ColumnSet, n: usize, y: usize, touching: ColumnSet) -> ColumnSet
    ensures { Noted n y (members (whole touching)) into.old into.new (members (whole ends)) (members (whole result)) }
{
    if y < n {
        columns::put_row(into, y, columns::row(into, y).union(touching));
        return ends;
    }
    ends.union(touching)
}

// The row of each column that owns one gets the columns of the set that its own row touches. Gives the columns that touch a free row.
pub fn link(state: &State, model: &Admitted, offered: ColumnSet, into: &mut [u64]) -> ColumnSet
    requires { Roomy model.now state.now × (within model.now.n (whole offered) ≡ true) }
    ensures { Linked model.now.n (touched_by model.now state.now) (owned_by state.now) (members (whole offered)) (lines_of model.now) into.old into.new (members (whole result)) }
{
    let mut ends = ColumnSet::empty();
    for q in 0..model.a + model.b {
        let y = usize::from(state.owner[q]);
        let touching = row_touches(state, model, q).intersection(offered);
        ends = note(into, ends, model.n, y, touching);
    }
    ends
}
