// The contents of a model, from a file or handed over: a test of each kind.
ghost use Rattle.std.specs.Prelude.{◌≡◌, ◌+◌, ◌*◌, ◌<◌, max, take, get_or};
ghost use Rattle.std.specs.List.{fold};
ghost use Rattle.columns.specs.ColumnSets.{row_numbers};
ghost use Rattle.format.specs.Refusals.{prime_test, size_test, constant_test, parameter_test};
ghost use Rattle.format.specs.File.Format.{entries};

use limits::{LARGEST_PRIME, MOST_COLUMNS, MOST_ROWS};

// The byte at that place, or 0 where there is none.
pub fn byte_at(bytes: &[u8], i: usize) -> u8
    ensures { result ≡ get_or bytes.now i 0 }
{
    bytes.get(i).copied().unwrap_or(0)
}

// Two bytes as a number, the low one first.
pub fn two(lo: u8, hi: u8) -> u32
    ensures { (result ≡ lo + 256 * hi) × (result < 65536) }
{
    u32::from(u16::from_le_bytes([lo, hi]))
}

// Whether p is a prime up to the largest.
pub fn prime_within(p: u32) -> bool
    ensures { result ≡ prime_test p }
{
    p <= LARGEST_PRIME && residue::is_prime(p)
}

// Whether n, a and b are within their limits.
pub fn sizes_within(n: usize, a: usize, b: usize) -> bool
    ensures { result ≡ size_test n a b }
{
    1 <= n && n <= MOST_COLUMNS && a <= MOST_ROWS && b <= MOST_ROWS
}

// Whether every entry of a row's body is below p. All of a row are compared with one another, and the largest with p.
pub fn entries_below(body: &[u8], p: u32) -> bool
    ensures { result ≡ constant_test p (entries body.now) }
{
    body.len() < 2 || u32::from(largest_entry(body)) < p
}

// The largest entry of a row's body, or 0 where it has none.
fn largest_entry(body: &[u8]) -> u16
    ensures { result ≡ fold max 0 (entries body.now) }
{
    body.chunks_exact(2).fold(0u16, |largest, pair| {
        largest.max(u16::from_le_bytes([pair[0], pair[1]]))
    })
}

// Whether every constant is below p: part by part, by the largest of each, so that a part with one that is not is the last one read.
pub fn constants_below(constants: &[u16], p: u32) -> bool
    ensures { result ≡ constant_test p constants.now }
{
    constants
        .chunks(MOST_COLUMNS)
        .all(|part| u32::from(largest_constant(part)) < p)
}

// The largest of some constants, or 0 where there is none.
fn largest_constant(constants: &[u16]) -> u16
    ensures { result ≡ fold max 0 constants.now }
{
    constants
        .iter()
        .fold(0u16, |largest, &constant| largest.max(constant))
}

// Whether none of the first b parameter rows, or of all that the area holds, has a parameter at column n or later.
pub fn parameters_within(parameters: &[u64], b: usize, n: usize) -> bool
    ensures { result ≡ parameter_test n (take b (row_numbers parameters.now)) }
{
    (0..columns::rows_below(parameters, b)).all(|r| columns::row(parameters, r).within(n))
}
