// A column read off a tableau whose rows have owners: each owner is a unit column, so the entry in its row is its multiplier.
ghost use Rattle.std.specs.Prelude.{◌<◌};
ghost use Rattle.exchange.specs.Code.State.{Roomy};
ghost use Rattle.exchange.specs.Code.Reading.{ZeroWhereFree, EntriesByOwner};

use crate::sizes::STRIDE;
use crate::state::{Admitted, State};
use limits::MOST_COLUMNS;

// Whether the column x is zero in every free row.
pub fn is_zero_where_free(state: &State, model: &Admitted, x: usize) -> bool
    requires { Roomy model.now state.now × (x < model.now.n) }
    ensures { ZeroWhereFree model.now.n model.now.a x state.now.cells state.now.owner result }
{
    (0..model.a).all(|q| {
        let is_free = usize::from(state.owner[q]) >= model.n;
        !is_free || state.cells[q * STRIDE + x] == 0
    })
}

// At the owner of each row the entry of column x there, and 0 at every other column.
pub fn entries_by_owner(state: &State, model: &Admitted, x: usize) -> [u16; MOST_COLUMNS]
    requires { Roomy model.now state.now × (x < model.now.n) }
    ensures { EntriesByOwner model.now.n model.now.a x state.now.cells state.now.owner result }
{
    let mut entries = [0u16; MOST_COLUMNS];
    for q in 0..model.a {
        let y = usize::from(state.owner[q]);
        if y < model.n {
            entries[y] = state.cells[q * STRIDE + x];
        }
    }
    entries
}
