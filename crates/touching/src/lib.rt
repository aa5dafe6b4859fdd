// How many parameter rows touch a set of columns: the middle term of the set's sum.
#![tactic(auto)]

ghost use Rattle.std.specs.Prelude.{◌≡◌};
ghost use Rattle.columns.specs.Columns.{members};
ghost use Rattle.columns.specs.ColumnSets.{whole, row_numbers};
ghost use Rattle.touching.specs.RowCount.{touching_count};

use columns::ColumnSet;

// The number of parameter rows, b of them in an area, that have a parameter in the set, at a column below n. A row that the area
// does not have is empty.
pub fn touching_rows(parameters: &[u64], n: usize, b: usize, set: ColumnSet) -> usize
    ensures { result ≡ touching_count n b (row_numbers parameters.now) (members (whole set)) }
{
    let end = columns::rows_below(parameters, b);
    let inside = set.intersection(ColumnSet::below(n));
    let mut many: usize = 0;
    for r in 0..end {
        if columns::row(parameters, r).touches(inside) {
            many += 1;
        }
    }
    many
}
