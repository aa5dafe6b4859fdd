// Seats: a column takes a free row that touches it; a column is placed by seating columns until its own turn comes.
ghost use Rattle.std.specs.Prelude.{◌≡◌, true, ◌<◌, length};
ghost use Rattle.residue.specs.Arithmetic.{InverseTable};
ghost use Rattle.rank.specs.Graph.States.{Placed};
ghost use Rattle.exchange.specs.Sizes.{lines};
ghost use Rattle.exchange.specs.Code.Held.{vacated_owner, Vacated, Taken, Sat};
ghost use Rattle.exchange.specs.Code.State.{rows_of, lines_of, Roomy, Ready, Completed, Holding};
ghost use Rattle.exchange.specs.Code.Placing.{Placing};

use crate::search::{self, Found};
use crate::state::{Admitted, State};
use crate::tableau;
use columns::ColumnSet;

// The owner y of a row, or n where it is x.
#[tactic(auto, unfolding(crate::specs::Code::Held::vacated_owner))]
fn vacated(y: u8, x: u8, n: u8) -> u8
    ensures { result ≡ vacated_owner x n y }
{
    if y == x { n } else { y }
}

// The row that the column x owns, if any, becomes free. All rows are written, also those that the model does not have, so that the
// loop runs on whole vectors.
fn vacate(state: &mut State, model: &Admitted, x: usize)
    requires { Roomy model.now state.old × (x < model.now.n) }
    ensures { (state.new.cells ≡ state.old.cells) × (length state.new.owner ≡ lines) × Vacated model.now.n (lines_of model.now) x state.old.owner state.new.owner }
{
    let (column, free) = (x as u8, model.n as u8);
    for owner in state.owner.iter_mut() {
        *owner = vacated(*owner, column, free);
    }
}

// The column x, which has no row, takes the free row q. At a constant row the tableau is pivoted.
fn take_row(state: &mut State, model: &Admitted, x: usize, q: usize)
    requires { Ready model.now state.old × InverseTable model.now.p model.now.inverses.now × (x < model.now.n) × (q < lines_of model.now) }
    ensures { Ready model.now state.new × Taken model.now.p model.now.n model.now.a x q state.old.cells state.old.owner state.new.cells state.new.owner }
{
    state.owner[q] = x as u8;
    if q < model.a {
        tableau::pivot(&mut state.cells, model, q, x);
    }
}

// The column x takes the free row q, and the row that it has becomes free.
fn seat(state: &mut State, model: &Admitted, x: usize, q: usize)
    requires { Ready model.now state.old × InverseTable model.now.p model.now.inverses.now × (x < model.now.n) × (q < lines_of model.now) }
    ensures { Ready model.now state.new × Sat model.now.p model.now.n model.now.a (lines_of model.now) x q state.old.cells state.old.owner state.new.cells state.new.owner }
{
    vacate(state, model, x);
    take_row(state, model, x, q);
}

// Whether the column j could be placed besides those that are.
pub fn place(state: &mut State, model: &Admitted, j: usize) -> bool
    requires { Ready model.now state.old × InverseTable model.now.p model.now.inverses.now × (j < model.now.n) × ((G : Completed model.now) × (G.E j ≡ true) × Holding model.now G state.old) }
    ensures { Ready model.now state.new × ((G : Completed model.now) (h : Holding model.now G state.old) → G.E j ≡ true → (Placed h.s j → ⊥) → Placing model.now.p model.now.n model.now.a model.now.b (rows_of model.now) G state.old.cells state.old.owner state.new.cells state.new.owner j result h) }
{
    let start = ColumnSet::empty().with(j);
    let mut found = search::search(state, model, start);
    while let Found::Free { column, row, depth } = found {
        if depth == 0 {
            take_row(state, model, j, row);
            return true;
        }
        seat(state, model, column, row);
        found = search::search(state, model, start);
    }
    false
}
