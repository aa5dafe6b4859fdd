// Sets of columns, a type of their own: no other code touches their bits or the words of a parameter row, or knows how many words they
// are. Column x below 64 is in a set if bit x of its low word is 1, and column 64 + x if bit x of its high word is. Every function is
// total: a column that a set has no room for is in none, and putting it into one changes nothing.
#![tactic(auto)]

ghost use Rattle.std.specs.Prelude.{MatchOption, ◌≡◌, ◌<◌, ◌≤◌, min, eqb, length, get_or};
ghost use Rattle.counting.specs.Sets.{◌∪◌, ◌∩◌, ∁, #, any};
ghost use Rattle.columns.specs.Bytes.{bytes_of};
ghost use Rattle.columns.specs.Columns.{width, room_bytes, members, none, upto, inserted, removed, moved_up, moved_down, least, last_member, within};
ghost use Rattle.columns.specs.ColumnSets.{row_words, most_words, empty_set, whole, Fits, ReadFrom, row_numbers, rows_touching, with_row};

use limits::MOST_ROWS;

mod word;

// How many columns a set has room for, and in how many bytes.
pub const WIDTH: usize = 2 * word::WIDTH;

const BYTES: usize = WIDTH / 8;

// How many words an area has for each parameter row, and for those of every model.
pub const ROW_WORDS: usize = 2;

pub const MOST_WORDS: usize = MOST_ROWS * ROW_WORDS;

fn width_tied() -> usize
    ensures { result ≡ width }
{
    WIDTH
}

fn bytes_tied() -> usize
    ensures { result ≡ room_bytes }
{
    BYTES
}

fn row_words_tied() -> usize
    ensures { result ≡ row_words }
{
    ROW_WORDS
}

fn most_words_tied() -> usize
    ensures { result ≡ most_words }
{
    MOST_WORDS
}

// A set of columns.
#[derive(Clone, Copy)]
pub struct ColumnSet {
    low: u64,
    high: u64,
}

impl ColumnSet {
    // The empty set.
    pub fn empty() -> ColumnSet
        ensures { result ≡ empty_set }
    {
        ColumnSet {
            low: word::EMPTY,
            high: word::EMPTY,
        }
    }

    // Whether the set has no column.
    pub fn is_empty(self) -> bool
        ensures { result ≡ eqb (# width (members (whole self))) 0 }
    {
        word::is_empty(self.low) && word::is_empty(self.high)
    }

    // All columns below n.
    pub fn below(n: usize) -> ColumnSet
        ensures { members (whole result) ≡ upto n }
    {
        ColumnSet {
            low: word::below(n),
            high: word::below(n.saturating_sub(word::WIDTH)),
        }
    }

    // Whether column x is in the set.
    pub fn contains(self, x: usize) -> bool
        ensures { result ≡ members (whole self) x }
    {
        if x < word::WIDTH {
            word::contains(self.low, x)
        } else {
            word::contains(self.high, x - word::WIDTH)
        }
    }

    // The set with column x.
    pub fn with(self, x: usize) -> ColumnSet
        ensures { members (whole result) ≡ inserted (members (whole self)) x }
    {
        if x < word::WIDTH {
            ColumnSet {
                low: word::with(self.low, x),
                ..self
            }
        } else {
            ColumnSet {
                high: word::with(self.high, x - word::WIDTH),
                ..self
            }
        }
    }

    // The set without column x.
    pub fn without(self, x: usize) -> ColumnSet
        ensures { members (whole result) ≡ removed (members (whole self)) x }
    {
        if x < word::WIDTH {
            ColumnSet {
                low: word::without(self.low, x),
                ..self
            }
        } else {
            ColumnSet {
                high: word::without(self.high, x - word::WIDTH),
                ..self
            }
        }
    }

    // The columns of either set.
    pub fn union(self, other: ColumnSet) -> ColumnSet
        ensures { members (whole result) ≡ members (whole self) ∪ members (whole other) }
    {
        ColumnSet {
            low: self.low | other.low,
            high: self.high | other.high,
        }
    }

    // The columns of both sets.
    pub fn intersection(self, other: ColumnSet) -> ColumnSet
        ensures { members (whole result) ≡ members (whole self) ∩ members (whole other) }
    {
        ColumnSet {
            low: self.low & other.low,
            high: self.high & other.high,
        }
    }

    // The columns of the first set that are not in the other.
    pub fn difference(self, other: ColumnSet) -> ColumnSet
        ensures { members (whole result) ≡ members (whole self) ∩ ∁ (members (whole other)) }
    {
        ColumnSet {
            low: self.low & !other.low,
            high: self.high & !other.high,
        }
    }

    // Whether a row has a parameter in the set: by words, not column by column.
    pub fn touches(self, set: ColumnSet) -> bool
        ensures { result ≡ any width (members (whole set) ∩ members (whole self)) }
    {
        !set.intersection(self).is_empty()
    }

    // The least column of the set, or `WIDTH` where it is empty: of the first word that is not empty.
    pub fn first(self) -> usize
        ensures { result ≡ least width (members (whole self)) }
    {
        if word::is_empty(self.low) {
            word::WIDTH + word::first(self.high)
        } else {
            word::first(self.low)
        }
    }

    // The least column of the set, and the set without it: of the first word that is not empty.
    fn split_first(self) -> Option<(usize, ColumnSet)>
        ensures { MatchOption result (members (whole self) ≡ none) (λ split. (split.0 ≡ least width (members (whole self))) × (split.0 < width) × (members (whole split.1) ≡ removed (members (whole self)) split.0)) }
    {
        if !word::is_empty(self.low) {
            let rest = ColumnSet {
                low: word::without_first(self.low),
                ..self
            };
            Some((word::first(self.low), rest))
        } else if !word::is_empty(self.high) {
            let rest = ColumnSet {
                high: word::without_first(self.high),
                ..self
            };
            Some((word::WIDTH + word::first(self.high), rest))
        } else {
            None
        }
    }

    // How many columns the set has.
    pub fn size(self) -> usize
        ensures { result ≡ # width (members (whole self)) }
    {
        word::size(self.low) + word::size(self.high)
    }

    // The columns of the set moved m up; those that a set has no room for are gone.
    pub fn raised(self, m: usize) -> ColumnSet
        ensures { members (whole result) ≡ moved_up (members (whole self)) m }
    {
        if m < word::WIDTH {
            ColumnSet {
                low: word::raised(self.low, m),
                high: word::raised(self.high, m) | word::lowered(self.low, word::WIDTH - m),
            }
        } else {
            ColumnSet {
                low: word::EMPTY,
                high: word::raised(self.low, m - word::WIDTH),
            }
        }
    }

    // The columns of the set from m on, moved m down.
    pub fn lowered(self, m: usize) -> ColumnSet
        ensures { members (whole result) ≡ moved_down (members (whole self)) m }
    {
        if m < word::WIDTH {
            ColumnSet {
                low: word::lowered(self.low, m) | word::raised(self.high, word::WIDTH - m),
                high: word::lowered(self.high, m),
            }
        } else {
            ColumnSet {
                low: word::lowered(self.high, m - word::WIDTH),
                high: word::EMPTY,
            }
        }
    }

    // Whether every column of the set is below n.
    pub fn within(self, n: usize) -> bool
        ensures { result ≡ within n (whole self) }
    {
        if n < word::WIDTH {
            word::is_empty(self.high) && word::within(self.low, n)
        } else {
            word::within(self.high, n - word::WIDTH)
        }
    }

    // The set that bytes show, the low byte first: column c is bit c mod 8 of byte c div 8. Bytes that are missing count as 0.
    pub fn of_bytes(bytes: &[u8]) -> ColumnSet
        ensures { ReadFrom bytes.now result }
    {
        ColumnSet {
            low: word::of_bytes(bytes),
            high: word::of_bytes(bytes.get(word::BYTES..).unwrap_or(&[])),
        }
    }

    // Byte k of those that show the set, and 0 past the last.
    pub fn byte(self, k: usize) -> u8
        ensures { result ≡ get_or (bytes_of room_bytes (whole self)) k 0 }
    {
        if k < word::BYTES {
            word::byte(self.low, k)
        } else {
            word::byte(self.high, k - word::BYTES)
        }
    }
}

// The columns of a set one after another, the least first.
#[derive(Drop)]
pub struct Members {
    rest: ColumnSet,
    ghost fits: { Fits rest },
}

impl Iterator for Members {
    ghost use Rattle.std.specs.Iterator.{at_most};
    ghost use Rattle.columns.specs.Turns.{left, GivesLeast};

    type Item = usize;

    ghost next_gives = { GivesLeast };

    ghost remaining = { λ s. at_most (# width (left s)) };

    fn next(&mut self) -> Option<usize> {
        let (x, rest) = self.rest.split_first()?;
        self.rest = rest;
        Some(x)
    }
}

impl IntoIterator for ColumnSet {
    ghost use Rattle.columns.specs.Turns.{left};

    type Item = usize;

    type IntoIter = Members;

    ghost into_iter_gives = { λ set it. left it ≡ members (whole set) };

    fn into_iter(self) -> Members {
        Members { rest: self }
    }
}

// How many parameter rows an area holds.
pub fn rows(words: &[u64]) -> usize
    ensures { result ≡ length (row_numbers words.now) }
{
    words.len() / ROW_WORDS
}

// The columns of parameter row r of an area, and none where the area has no such row.
#[tactic(auto, using(crate::specs::Words::Rows::rows_length))]
pub fn row(words: &[u64], r: usize) -> ColumnSet
    ensures { whole result ≡ get_or (row_numbers words.now) r 0 }
{
    if r < rows(words) {
        let at = ROW_WORDS * r;
        ColumnSet {
            low: words[at],
            high: words[at + 1],
        }
    } else {
        ColumnSet::empty()
    }
}

// As many rows as named, or all that the area holds.
pub fn rows_below(words: &[u64], end: usize) -> usize
    ensures { result ≡ min end (length (row_numbers words.now)) }
{
    end.min(rows(words))
}

// Whether a row has a parameter in a set with no column from 64 on, which its low word is.
#[tactic(auto, using(crate::specs::Words::Rows::rows_length))]
fn low_touches(words: &[u64], r: usize, low: u64) -> bool
    requires { r < length (row_numbers words.now) }
    ensures { result ≡ rows_touching (row_numbers words.now) (members low) r }
{
    words[ROW_WORDS * r] & low != word::EMPTY
}

// Of the rows below `all`, the last that has a parameter in the set, or `end` where none has.
fn last_below(words: &[u64], all: usize, set: ColumnSet, end: usize) -> usize
    ensures { result ≡ last_member end all (rows_touching (row_numbers words.now) (members (whole set))) }
{
    for r in (0..all).rev() {
        if row(words, r).touches(set) {
            return r;
        }
    }
    end
}

// The same for a set that has no column from 64 on: in the rows' low words alone, and four rows a turn, since the search spends most of
// its time here.
fn last_below_low(words: &[u64], all: usize, set: ColumnSet, end: usize) -> usize
    requires { (all ≤ length (row_numbers words.now)) × (set.high ≡ 0) }
    ensures { result ≡ last_member end all (rows_touching (row_numbers words.now) (members (whole set))) }
{
    let mut r = all;
    while r >= 4 {
        if low_touches(words, r - 1, set.low) {
            return r - 1;
        }
        if low_touches(words, r - 2, set.low) {
            return r - 2;
        }
        if low_touches(words, r - 3, set.low) {
            return r - 3;
        }
        if low_touches(words, r - 4, set.low) {
            return r - 4;
        }
        r -= 4;
    }
    last_below(words, r, set, end)
}

// The last parameter row below `end` that has a parameter in the set, or `end` where none has.
pub fn last_touching(words: &[u64], end: usize, set: ColumnSet) -> usize
    ensures { result ≡ last_member end end (rows_touching (row_numbers words.now) (members (whole set))) }
{
    let all = rows_below(words, end);
    if set.high == word::EMPTY {
        last_below_low(words, all, set, end)
    } else {
        last_below(words, all, set, end)
    }
}

// Parameter row r of an area gets the columns of the set; nothing changes where the area has no such row.
#[tactic(auto, using(crate::specs::Words::Rows::rows_length))]
pub fn put_row(words: &mut [u64], r: usize, set: ColumnSet)
    ensures { words.new ≡ with_row words.old r (whole set) }
{
    if r < rows(words) {
        let at = ROW_WORDS * r;
        words[at] = set.low;
        words[at + 1] = set.high;
    }
}
