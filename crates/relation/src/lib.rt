// A relation between columns, as the set of each column in a row of an area of words: columns put into rows, and rows closed, so that
// each has all that it leads to. A column without a row of its own leads nowhere, and nothing is put there.
#![tactic(auto)]

ghost use Rattle.std.specs.Prelude.{◌≡◌, false, ◌≢◌, ℕ, ◌<◌};
ghost use Rattle.counting.specs.Sets.{Set, ◌∈◌, #};
ghost use Rattle.columns.specs.Columns.{width, members};
ghost use Rattle.columns.specs.ColumnSets.{whole};
ghost use Rattle.relation.specs.Relations.{Joined, ClosedOver};
ghost use Rattle.relation.specs.Closures.{Partly, LeadsTo};

use columns::ColumnSet;
use limits::MOST_COLUMNS;

// The columns of a set go into the rows of the columns named.
pub fn join(rows: &mut [u64], at: ColumnSet, set: ColumnSet)
    ensures { Joined (members (whole at)) (members (whole set)) rows.old rows.new }
{
    for x in at {
        columns::put_row(rows, x, columns::row(rows, x).union(set));
    }
}

// A column of the set: one whose row is done, where there is one, since nothing of such a row has to be read again.
fn pick_done(set: ColumnSet, done: ColumnSet) -> usize
    requires { # width (members (whole set)) ≢ 0 }
    ensures { (result < width) × (result ∈ members (whole set)) }
{
    let both = set.intersection(done);
    if both.is_empty() {
        set.first()
    } else {
        both.first()
    }
}

// The column and all that its row leads to. Where the row of y is done, it has all that it leads to, and none of these has to be read;
// else what was not found before has.
fn reached(rows: &[u64], done: ColumnSet, x: usize) -> ColumnSet
    requires { (x < width) × (members (whole done) x ≡ false) }
    ensures { (R : ℕ → Set) → Partly R (members (whole done)) rows.now → LeadsTo R x (members (whole result)) }
{
    let direct = columns::row(rows, x);
    let mut found = direct.with(x);
    let mut front = direct.without(x);
    while !front.is_empty() {
        let y = pick_done(front, done);
        let row = columns::row(rows, y);
        let ahead = if done.contains(y) {
            front.difference(row)
        } else {
            front.union(row.difference(found))
        };
        front = ahead.without(y);
        found = found.union(row);
    }
    found
}

// Which column is taken next changes the time alone. Of 96 columns each lies 59 further than the next one taken, around the end, so that
// those that are done lie spread: where columns lead to one another in the order of their numbers, one that is done is then soon met.
const STEP: usize = 59;

// A column of the set: the one due by the step, or the first one where that is none of the set.
fn pick_spread(set: ColumnSet) -> usize
    requires { # width (members (whole set)) ≢ 0 }
    ensures { (result < width) × (result ∈ members (whole set)) }
{
    let x = set.size() * STEP % MOST_COLUMNS;
    if set.contains(x) { x } else { set.first() }
}

// Each row of the columns named gets its own column and all that it leads to.
pub fn close(rows: &mut [u64], over: ColumnSet)
    ensures { ClosedOver (members (whole over)) rows.old rows.new }
{
    let mut rest = over;
    let mut done = ColumnSet::empty();
    while !rest.is_empty() {
        let x = pick_spread(rest);
        let all = reached(rows, done, x);
        columns::put_row(rows, x, all);
        done = done.with(x);
        rest = rest.without(x);
    }
}
