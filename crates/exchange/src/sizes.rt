// The sizes of the solver's arrays. Each constant has a twin in specs/ that contracts cite; a private function's promise ties the two.
ghost use Rattle.std.specs.Prelude.{◌≡◌};
ghost use Rattle.exchange.specs.Sizes.{stride, cells, lines, block};

use columns::WIDTH;
use limits::{MOST_COLUMNS, MOST_ROWS};

// From a row of the tableau to the next: a cell for each column that a model has at most.
pub const STRIDE: usize = MOST_COLUMNS;

// The cells of a tableau: its rows, and behind the last as many more as a set has room for columns that no model has. So a row's place
// and a column of a set make a place of the tableau, with no test.
pub const CELLS: usize = MOST_ROWS * STRIDE + (WIDTH - STRIDE);

// The rows of both kinds.
pub const LINES: usize = 2 * MOST_ROWS;

// How many columns a row operation takes at a time.
pub const BLOCK: usize = 16;

fn stride_tied() -> usize
    ensures { result ≡ stride }
{
    STRIDE
}

fn cells_tied() -> usize
    ensures { result ≡ cells }
{
    CELLS
}

fn lines_tied() -> usize
    ensures { result ≡ lines }
{
    LINES
}

fn block_tied() -> usize
    ensures { result ≡ block }
{
    BLOCK
}
