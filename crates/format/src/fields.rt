// The fields of a file: their tags, and what a field's head says of the field in front, its body and what follows it. A file that is
// accepted is walked by these alone.
ghost use Rattle.std.specs.Prelude.{◌≡◌, ◌-◌, ◌<◌, length, drop};
ghost use Rattle.format.specs.Refusals.{head_bytes, said_length};
ghost use Rattle.format.specs.File.Piece.{said_body, said_rest, PartAt, LastPart};
ghost use Rattle.format.specs.File.Format.{parameter_size};

use crate::content::{byte_at, two};
use limits::SET_BYTES;

// How many bytes a field's head has: a tag, and the length of the body in two.
pub const HEAD_BYTES: usize = 3;

pub const PRIME_TAG: u8 = 1;

pub const SIZES_TAG: u8 = 2;

pub const CONSTANT_TAG: u8 = 3;

pub const PARAMETER_TAG: u8 = 4;

pub const END_TAG: u8 = 5;

pub const NUMBER_TAG: u8 = 6;

// How long the bodies of p and of n, a, b are.
pub const PRIME_BYTES: usize = 2;

pub const SIZES_BYTES: usize = 3;

// Up to so many columns a parameter row's body has so many bytes; above it has as many as show a set.
const NARROW_COLUMNS: usize = 64;

const NARROW_BYTES: usize = 8;

// How long the body of a parameter row is, by n.
pub fn parameter_size(n: usize) -> usize
    ensures { result ≡ parameter_size n }
{
    if n > NARROW_COLUMNS {
        SET_BYTES
    } else {
        NARROW_BYTES
    }
}

// The length that the head of the field in front says.
pub fn said_length(rest: &[u8]) -> usize
    ensures { (result ≡ said_length rest.now) × (result < 65536) }
{
    two(byte_at(rest, 1), byte_at(rest, 2)) as usize
}

// What stands behind the head, or the empty part at the end.
pub fn past_head(rest: &[u8]) -> &[u8]
    ensures { LastPart (drop head_bytes rest.now) rest.entry result }
{
    &rest[HEAD_BYTES.min(rest.len())..]
}

// The body of the field in front; as much of it as there is.
pub fn said_body(rest: &[u8]) -> &[u8]
    ensures { PartAt (length rest.now - length (drop head_bytes rest.now)) (said_body rest.now) rest.entry result }
{
    let body = past_head(rest);
    &body[..said_length(rest).min(body.len())]
}

// What follows the field in front; the empty part at the end where there is less.
pub fn said_rest(rest: &[u8]) -> &[u8]
    ensures { LastPart (said_rest rest.now) rest.entry result }
{
    let body = past_head(rest);
    &body[said_length(rest).min(body.len())..]
}
