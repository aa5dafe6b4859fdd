// The parameters' numbers: whether one is met a second time, by a table that has a bit for each number there is.
ghost use Rattle.std.specs.Prelude.{◌≡◌, ◌+◌, ◌*◌, ◌≤◌, ◌<◌, length, take};
ghost use mathlib.Core.List.{[], ◌∷◌, flatten};
ghost use Rattle.limits.specs.Limits.{most_columns};
ghost use Rattle.columns.specs.Columns.{word_width, members, inserted_in};
ghost use Rattle.columns.specs.ColumnSets.{whole, row_numbers};
ghost use Rattle.format.specs.Numbers.{once, picked, numbers_in};
ghost use Rattle.format.specs.NumberTable.{table_words, Meets, entry_at};
ghost use Rattle.format.specs.File.Format.{entries};

use columns::ColumnSet;

// How many words the table has: a bit for each number that two bytes show.
pub const TABLE_WORDS: usize = 1024;

const WORD_BITS: usize = 64;

// The word with one bit more.
fn with_bit(word: u64, x: usize) -> u64
    requires { x < word_width }
    ensures { members result ≡ inserted_in word_width (members word) x }
{
    word | (1u64 << x)
}

// Whether the number of these two bytes was not met before; it is from now on.
fn meet(table: &mut [u64], lo: u8, hi: u8) -> bool
    requires { length table.old ≡ table_words }
    ensures { Meets ((lo + 256 * hi) ∷ []) table.old table.new result }
{
    let place = 256 * ((lo as usize + hi as usize) % 256) + hi as usize;
    let at = place / WORD_BITS;
    let word = table[at];
    let next = with_bit(word, place % WORD_BITS);
    if next == word {
        return false;
    }
    table[at] = next;
    true
}

// The same of four numbers.
fn meet_four(table: &mut [u64], four: &[u8]) -> bool
    requires { (length table.old ≡ table_words) × (length four.now ≡ 8) }
    ensures { Meets (entries four.now) table.old table.new result }
{
    meet(table, four[0], four[1])
        && meet(table, four[2], four[3])
        && meet(table, four[4], four[5])
        && meet(table, four[6], four[7])
}

// The same of each number of a field's body: four in a turn, and then the up to three that are left.
pub fn meet_entries(table: &mut [u64], body: &[u8]) -> bool
    requires { length table.old ≡ table_words }
    ensures { Meets (entries body.now) table.old table.new result }
{
    let fours = body.chunks_exact(8);
    let rest = fours.remainder();
    for four in fours {
        if !meet_four(table, four) {
            return false;
        }
    }
    meet_rest(table, rest)
}

// The same of the numbers that are left, one in a turn.
fn meet_rest(table: &mut [u64], body: &[u8]) -> bool
    requires { length table.old ≡ table_words }
    ensures { Meets (entries body.now) table.old table.new result }
{
    for pair in body.chunks_exact(2) {
        if !meet(table, pair[0], pair[1]) {
            return false;
        }
    }
    true
}

// The same of a row's entry at column c, where the row has a parameter there; another is not read.
fn meet_entry(table: &mut [u64], set: ColumnSet, c: usize, number: u16) -> bool
    requires { length table.old ≡ table_words }
    ensures { Meets (entry_at (members (whole set)) c number) table.old table.new result }
{
    if !set.contains(c) {
        return true;
    }
    let [lo, hi] = number.to_le_bytes();
    meet(table, lo, hi)
}

// The same of each parameter of a row.
fn meet_row(table: &mut [u64], set: ColumnSet, row: &[u16]) -> bool
    requires { length table.old ≡ table_words }
    ensures { Meets (picked (members (whole set)) 0 row.now) table.old table.new result }
{
    for (c, number) in row.iter().enumerate() {
        if !meet_entry(table, set, c, *number) {
            return false;
        }
    }
    true
}

// Whether no number of the first b parameter rows is met twice; an area has n of them for each row.
pub fn numbers_once(parameters: &[u64], numbers: &[u16], n: usize, b: usize) -> bool
    requires { (b ≤ length (row_numbers parameters.now)) × (b * n ≤ length numbers.now) × (n ≤ most_columns) }
    ensures { result ≡ once (flatten (numbers_in n (take b (row_numbers parameters.now)) numbers.now)) }
{
    let mut table = [0u64; TABLE_WORDS];
    let mut rest = numbers;
    for r in 0..b {
        let (row, others) = rest.split_at(n);
        if !meet_row(&mut table, columns::row(parameters, r), row) {
            return false;
        }
        rest = others;
    }
    true
}
