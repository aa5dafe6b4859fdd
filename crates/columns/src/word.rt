// One word of a set: column x is in it if bit x is 1. Every function is total: a column that a word has no room for is in none, and
// putting it into one changes nothing.
ghost use Rattle.std.specs.Prelude.{◌≡◌, ◌<◌, eqb, get_or, length, take};
ghost use Rattle.counting.specs.Sets.{#};
ghost use Rattle.columns.specs.Bytes.{number, bytes_of};
ghost use Rattle.columns.specs.Columns.{word_width, word_bytes, members, upto_in, inserted_in, removed, moved_up_in, moved_down, least, within_in};

// How many columns a word has room for, and in how many bytes.
pub const WIDTH: usize = 64;

pub const BYTES: usize = WIDTH / 8;

fn width_tied() -> usize
    ensures { result ≡ word_width }
{
    WIDTH
}

fn bytes_tied() -> usize
    ensures { result ≡ word_bytes }
{
    BYTES
}

// The word with no column.
pub const EMPTY: u64 = 0;

// Whether the word has no column.
pub fn is_empty(word: u64) -> bool
    ensures { result ≡ eqb (# word_width (members word)) 0 }
{
    word == EMPTY
}

// All columns below n.
pub fn below(n: usize) -> u64
    ensures { members result ≡ upto_in word_width n }
{
    if n < WIDTH { (1u64 << n) - 1 } else { u64::MAX }
}

// Whether column x is in the word.
pub fn contains(word: u64, x: usize) -> bool
    ensures { result ≡ members word x }
{
    x < WIDTH && (word >> x) % 2 == 1
}

// The word with column x.
pub fn with(word: u64, x: usize) -> u64
    ensures { members result ≡ inserted_in word_width (members word) x }
{
    if x < WIDTH { word | (1u64 << x) } else { word }
}

// The word without column x.
pub fn without(word: u64, x: usize) -> u64
    ensures { members result ≡ removed (members word) x }
{
    if x < WIDTH { word & !(1u64 << x) } else { word }
}

// The word without its least column: 1 less has the same columns above it, and not it.
pub fn without_first(word: u64) -> u64
    ensures { members result ≡ removed (members word) (least word_width (members word)) }
{
    word & word.wrapping_sub(1)
}

// The least column of the word, or `WIDTH` where it is empty.
pub fn first(word: u64) -> usize
    ensures { result ≡ least word_width (members word) }
{
    word.trailing_zeros() as usize
}

// How many columns the word has.
pub fn size(word: u64) -> usize
    ensures { result ≡ # word_width (members word) }
{
    word.count_ones() as usize
}

// The columns of the word moved m up; those that a word has no room for are gone.
pub fn raised(word: u64, m: usize) -> u64
    ensures { members result ≡ moved_up_in word_width (members word) m }
{
    if m < WIDTH { word << m } else { EMPTY }
}

// The columns of the word from m on, moved m down.
pub fn lowered(word: u64, m: usize) -> u64
    ensures { members result ≡ moved_down (members word) m }
{
    if m < WIDTH { word >> m } else { EMPTY }
}

// Whether every column of the word is below n.
pub fn within(word: u64, n: usize) -> bool
    ensures { result ≡ within_in word_width n word }
{
    n >= WIDTH || word >> n == 0
}

// The word that bytes show, the low byte first. Bytes that are missing count as 0.
pub fn of_bytes(bytes: &[u8]) -> u64
    ensures { result ≡ number (take word_bytes bytes.now) }
{
    match bytes.first_chunk() {
        Some(all) => u64::from_le_bytes(*all),
        None => match bytes.split_first_chunk() {
            Some((low, rest)) => u64::from(u32::from_le_bytes(*low)) | (few_bytes(rest) << 32),
            None => few_bytes(bytes),
        },
    }
}

// The number that fewer than four bytes show.
fn few_bytes(bytes: &[u8]) -> u64
    requires { length bytes.now < 4 }
    ensures { (result ≡ number bytes.now) × (result < 16777216) }
{
    match *bytes {
        [] => 0,
        [x] => u64::from(x),
        [x, y] => u64::from_le_bytes([x, y, 0, 0, 0, 0, 0, 0]),
        [x, y, z, ..] => u64::from_le_bytes([x, y, z, 0, 0, 0, 0, 0]),
    }
}

// Byte k of those that show the word, and 0 past the last.
pub fn byte(word: u64, k: usize) -> u8
    ensures { result ≡ get_or (bytes_of word_bytes word) k 0 }
{
    if k < BYTES { word.to_le_bytes()[k] } else { 0 }
}
