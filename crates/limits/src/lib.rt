// The limits of models, files and answers. Each constant has a twin in specs/ that contracts cite; a private function's promise ties the two,
// so that they cannot part.
#![tactic(auto)]

ghost use Rattle.std.specs.Prelude.{◌≡◌};
ghost use Rattle.limits.specs.Limits.{most_columns, most_rows, most_constants, largest_prime, set_bytes, no_column, longest_file};

// n is 1 to so many columns.
pub const MOST_COLUMNS: usize = 96;

// a and b are 0 to so many rows each.
pub const MOST_ROWS: usize = 96;

// How many constants a model has at most.
pub const MOST_CONSTANTS: usize = MOST_ROWS * MOST_COLUMNS;

// The largest prime that two bytes hold.
pub const LARGEST_PRIME: u32 = 65521;

// How many bytes show a column set in an answer, and at most in a file's row.
pub const SET_BYTES: usize = 12;

// What a parameter row shows that has no column.
pub const NO_COLUMN: u8 = 255;

// How many bytes the longest file has.
pub const LONGEST_FILE: usize = 14
    + MOST_ROWS * (3 + 2 * MOST_COLUMNS)
    + MOST_ROWS * (3 + SET_BYTES)
    + MOST_ROWS * (3 + 2 * MOST_COLUMNS);

fn columns_tied() -> usize
    ensures { result ≡ most_columns }
{
    MOST_COLUMNS
}

fn rows_tied() -> usize
    ensures { result ≡ most_rows }
{
    MOST_ROWS
}

fn constants_tied() -> usize
    ensures { result ≡ most_constants }
{
    MOST_CONSTANTS
}

fn prime_tied() -> u32
    ensures { result ≡ largest_prime }
{
    LARGEST_PRIME
}

fn set_tied() -> usize
    ensures { result ≡ set_bytes }
{
    SET_BYTES
}

fn no_column_tied() -> u8
    ensures { result ≡ no_column }
{
    NO_COLUMN
}

fn file_tied() -> usize
    ensures { result ≡ longest_file }
{
    LONGEST_FILE
}
