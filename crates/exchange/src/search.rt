// The search of the exchange graph, layer by layer over columns, for a free row.
ghost use Rattle.std.specs.Prelude.{ℕ, ◌<◌};
ghost use Rattle.counting.specs.Sets.{Set, ◌∈◌};
ghost use Rattle.columns.specs.Columns.{members};
ghost use Rattle.columns.specs.ColumnSets.{whole};
ghost use Rattle.rank.specs.Graph.States as Graph;
ghost use Rattle.exchange.specs.Code.Scanning.{Scanned};
ghost use Rattle.exchange.specs.Code.State.{lines_of, touched_by, owned_by, Roomy};
ghost use Rattle.exchange.specs.Code.Searching.{Shows, Searched};

use crate::sizes::STRIDE;
use crate::state::{Admitted, State};
use columns::ColumnSet;

// What reading a set of columns meets: a free row, with a column of the set that it touches; or the owners of all rows that touch the
// set.
#[derive(Clone, Copy)]
enum Met {
    Free { column: usize, row: usize },
    OwnedBy(ColumnSet),
}

// Reads the parameter rows for a set: a row that does not touch it is passed over in one step.
fn scan_parameters(state: &State, model: &Admitted, front: ColumnSet) -> Met
    requires { Roomy model.now state.now }
    ensures { Scanned model.now.n (lines_of model.now) (touched_by model.now state.now) (owned_by state.now) (members (whole front)) model.now.a (lines_of model.now) result }
{
    let mut next = ColumnSet::empty();
    let mut end = model.b;
    loop {
        let r = columns::last_touching(model.parameters, end, front);
        if r >= end {
            return Met::OwnedBy(next);
        }
        let q = model.a + r;
        let y = usize::from(state.owner[q]);
        if y >= model.n {
            let common = front.intersection(columns::row(model.parameters, r));
            return Met::Free {
                column: common.first(),
                row: q,
            };
        }
        next = next.with(y);
        end = r;
    }
}

// Reads the constant rows for a set: of each row the columns of the set, up to the first in which it is not zero.
fn scan_constants(state: &State, model: &Admitted, front: ColumnSet) -> Met
    requires { Roomy model.now state.now }
    ensures { Scanned model.now.n (lines_of model.now) (touched_by model.now state.now) (owned_by state.now) (members (whole front)) 0 model.now.a result }
{
    'search: {
        let mut next = ColumnSet::empty();
        for q in (0..model.a).rev() {
            for x in front {
                let i = q * STRIDE + x;
                if state.cells[i] != 0 {
                    let y = usize::from(state.owner[q]);
                    if y >= model.n {
                        break 'search Met::Free { column: x, row: q };
                    }
                    next = next.with(y);
                    break;
                }
            }
        }
        Met::OwnedBy(next)
    }
}

// Reads the rows of both kinds. Parameter rows come first: a seat there needs no pivot.
fn scan(state: &State, model: &Admitted, front: ColumnSet) -> Met
    requires { Roomy model.now state.now }
    ensures { Scanned model.now.n (lines_of model.now) (touched_by model.now state.now) (owned_by state.now) (members (whole front)) 0 (lines_of model.now) result }
{
    let met = scan_parameters(state, model, front);
    let Met::OwnedBy(of_parameters) = met else {
        return met;
    };
    let met = scan_constants(state, model, front);
    let Met::OwnedBy(of_constants) = met else {
        return met;
    };
    Met::OwnedBy(of_parameters.union(of_constants))
}

// What a search ends with: a free row with a column that it touches, of the first layer that has such a column; or all that is reached.
#[derive(Clone, Copy)]
pub enum Found {
    Free {
        column: usize,
        row: usize,
        depth: usize,
    },
    Reached(ColumnSet),
}

pub fn search(state: &State, model: &Admitted, start: ColumnSet) -> Found
    requires { Roomy model.now state.now }
    ensures { (E : Set) (s : Graph.State model.now.n (lines_of model.now)) → Shows E s (touched_by model.now state.now) (owned_by state.now) → ((x : ℕ) → x ∈ members (whole start) → (x < model.now.n) × (x ∈ E)) → Searched s (members (whole start)) result }
{
    let mut reached = start;
    let mut front = start;
    let mut depth: usize = 0;
    loop {
        match scan(state, model, front) {
            Met::Free { column, row } => return Found::Free { column, row, depth },
            Met::OwnedBy(next) => {
                front = next.difference(reached);
                if front.is_empty() {
                    return Found::Reached(reached);
                }
                reached = reached.union(next);
                depth += 1;
            }
        }
    }
}
