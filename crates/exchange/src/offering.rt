// Offers columns from the least upward, and reads the answer off the seats that they end with.
ghost use Rattle.std.specs.Prelude.{◌≡◌, ◌≤◌, length};
ghost use Rattle.limits.specs.Limits.{most_rows};
ghost use Rattle.residue.specs.Arithmetic.{InverseTable};
ghost use Rattle.columns.specs.Columns.{members};
ghost use Rattle.columns.specs.ColumnSets.{whole};
ghost use Rattle.exchange.specs.Code.State.{rows_of, Roomy, Ready, Completed};
ghost use Rattle.exchange.specs.Code.Offering.{Offers, Offered-all};
ghost use Rattle.exchange.specs.Code.Answer.{Side, shown_column, RowsShown};

use crate::seating;
use crate::state::{Admitted, State};
use columns::ColumnSet;
use limits::{MOST_ROWS, NO_COLUMN};

// The columns of the set that are placed when all are offered.
pub fn offer_all(state: &mut State, model: &Admitted, offered: ColumnSet) -> ColumnSet
    requires { Ready model.now state.old × InverseTable model.now.p model.now.inverses.now × ((G : Completed model.now) × Offers model.now.p model.now.n model.now.a model.now.b (rows_of model.now) (members (whole offered)) state.old.cells state.old.owner G) }
    ensures { Ready model.now state.new × ((G : Completed model.now) → Offers model.now.p model.now.n model.now.a model.now.b (rows_of model.now) (members (whole offered)) state.old.cells state.old.owner G → Offered-all model.now.p model.now.n model.now.a model.now.b (rows_of model.now) G state.new.cells state.new.owner (members (whole result))) }
{
    let mut placed = ColumnSet::empty();
    for j in offered {
        if seating::place(state, model, j) {
            placed = placed.with(j);
        }
    }
    placed
}

// The columns that own constant rows.
pub fn constant_side(state: &State, model: &Admitted) -> ColumnSet
    requires { Roomy model.now state.now }
    ensures { Side model.now.n model.now.a state.now.owner (members (whole result)) }
{
    let mut side = ColumnSet::empty();
    for y in &state.owner[..model.a] {
        let y = usize::from(*y);
        if y < model.n {
            side = side.with(y);
        }
    }
    side
}

// The column y, or `NO_COLUMN`.
#[tactic(auto, unfolding(crate::specs::Code::Answer::shown_column))]
fn column_shown(y: u8, n: usize) -> u8
    ensures { result ≡ shown_column n y }
{
    if usize::from(y) < n { y } else { NO_COLUMN }
}

// The column of each parameter row, or `NO_COLUMN`.
pub fn row_columns(state: &State, model: &Admitted) -> [u8; MOST_ROWS]
    requires { Roomy model.now state.now × (model.now.b ≤ most_rows) }
    ensures { (length result ≡ most_rows) × RowsShown model.now.n model.now.a model.now.b state.now.owner result }
{
    let mut rows = [NO_COLUMN; MOST_ROWS];
    for r in 0..model.b {
        rows[r] = column_shown(state.owner[model.a + r], model.n);
    }
    rows
}
