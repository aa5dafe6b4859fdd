// Writers of text: bytes, decimals, items and lines put into an area from a place on. Each gives the place behind what it put. A byte
// that has no room is left out, so that every function is total; `print` is for a whole text, and refuses where it has no room. And a
// reader of numbers.
#![tactic(auto)]

ghost use Rattle.std.specs.Prelude.{◌≡◌, [], ◌∷◌, ◌+◌, ◌-◌, ◌*◌, ◌≤◌, ◌<◌};
ghost use Rattle.columns.specs.Columns.{members};
ghost use Rattle.columns.specs.ColumnSets.{whole};
ghost use Rattle.format.specs.Refused.{refusal_number};
ghost use Rattle.text.specs.Text.{decimal, line, item, pair_item, pair_unless, column_items, verdict_line, refused_line, Puts, Prints, number_below};

use columns::ColumnSet;
use format::Refusal;

// The text over the front of the area, and how many bytes it has; or the refusal of an area that is too short for it.
pub fn print(text: &[u8], out: &mut [u8]) -> Result<usize, Refusal>
    ensures { Prints text.now out.old result out.new }
{
    if out.len() < text.len() {
        return Err(Refusal::AreaShort);
    }
    Ok(put_bytes(out, 0, text))
}

// A verdict as its word.
pub fn put_verdict_line(out: &mut [u8], at: usize, verdict: u8) -> usize
    ensures { Puts (verdict_line verdict) out.old at out.new result }
{
    if verdict == 1 {
        return put_bytes(out, at, b"verdict determined\n");
    }
    if verdict == 2 {
        return put_bytes(out, at, b"verdict surplus\n");
    }
    put_bytes(out, at, b"verdict open\n")
}

// A refusal's number.
pub fn put_refused_line(out: &mut [u8], at: usize, refusal: Refusal) -> usize
    ensures { Puts (refused_line (refusal_number refusal)) out.old at out.new result }
{
    put_number_line(out, at, b"refused", u32::from(refusal) as usize)
}

// A word and a number.
pub fn put_number_line(out: &mut [u8], at: usize, word: &[u8], x: usize) -> usize
    ensures { Puts (line word.now (item x)) out.old at out.new result }
{
    let after_word = put_bytes(out, at, word);
    let after_item = put_item(out, after_word, x);
    put_byte(out, after_item, b'\n')
}

// A word and the columns of a set.
pub fn put_column_line(out: &mut [u8], at: usize, word: &[u8], set: ColumnSet) -> usize
    ensures { Puts (line word.now (column_items (members (whole set)))) out.old at out.new result }
{
    let after_word = put_bytes(out, at, word);
    let after_items = put_columns(out, after_word, set);
    put_byte(out, after_items, b'\n')
}

// The columns of the set, ascending.
fn put_columns(out: &mut [u8], at: usize, set: ColumnSet) -> usize
    ensures { Puts (column_items (members (whole set))) out.old at out.new result }
{
    let mut place = at;
    for x in set {
        place = put_item(out, place, x);
    }
    place
}

// Two numbers with a colon between them, or nothing where the second is the number that stands for that.
pub fn put_pair_unless(
    out: &mut [u8],
    at: usize,
    nothing: usize,
    first: usize,
    second: usize,
) -> usize
    ensures { Puts (pair_unless nothing first second) out.old at out.new result }
{
    if second == nothing {
        return at;
    }
    put_pair(out, at, first, second)
}

// Two numbers with a colon between them, and the space before them.
fn put_pair(out: &mut [u8], at: usize, first: usize, second: usize) -> usize
    ensures { Puts (pair_item first second) out.old at out.new result }
{
    let after_first = put_item(out, at, first);
    let after_colon = put_byte(out, after_first, b':');
    put_decimal(out, after_colon, second)
}

// A number with the space before it.
pub fn put_item(out: &mut [u8], at: usize, x: usize) -> usize
    ensures { Puts (item x) out.old at out.new result }
{
    let after_space = put_byte(out, at, b' ');
    put_decimal(out, after_space, x)
}

// A number in decimal: the digits before the last are those of its tenth.
fn put_decimal(out: &mut [u8], at: usize, x: usize) -> usize
    ensures { Puts (decimal x) out.old at out.new result }
{
    if x < 10 {
        return put_byte(out, at, digit(x));
    }
    let after_tens = put_decimal(out, at, x / 10);
    put_byte(out, after_tens, digit(x % 10))
}

fn digit(x: usize) -> u8
    requires { x < 10 }
    ensures { result ≡ 48 + x }
{
    b'0' + x as u8
}

pub fn put_bytes(out: &mut [u8], at: usize, text: &[u8]) -> usize
    ensures { Puts text.now out.old at out.new result }
{
    let mut place = at;
    for x in text {
        place = put_byte(out, place, *x);
    }
    place
}

pub fn put_byte(out: &mut [u8], at: usize, x: u8) -> usize
    ensures { Puts (x ∷ []) out.old at out.new result }
{
    if at < out.len() {
        out[at] = x;
        return at + 1;
    }
    at
}

// The number below the limit that the digits stand for. Whatever is no such number is read as the limit.
pub fn read_number(digits: &[u8], limit: u16) -> usize
    ensures { result ≡ number_below limit digits.now }
{
    let past = usize::from(limit);
    if digits.is_empty() {
        return past;
    }
    let mut x = 0;
    for c in digits {
        if !c.is_ascii_digit() {
            return past;
        }
        x = with_digit(x, *c);
        if x >= past {
            return past;
        }
    }
    x
}

// x with one more digit behind its own.
fn with_digit(x: usize, c: u8) -> usize
    requires { (x < 65536) × (48 ≤ c) × (c ≤ 57) }
    ensures { result ≡ 10 * x + (c - 48) }
{
    10 * x + usize::from(c - b'0')
}
