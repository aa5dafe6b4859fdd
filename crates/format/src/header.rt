// What a file says before its rows, and the file judged.
ghost use Rattle.std.specs.Prelude.{◌≡◌};
ghost use Rattle.format.specs.Refused.{refusal_of};
ghost use Rattle.format.specs.File.Piece.{Judgement};
ghost use Rattle.format.specs.File.Format.{prime_field, sizes_field, judge, header, HeaderRead};
ghost use Rattle.format.specs.File.Unnumbered.{unnumbered_header};
ghost use Rattle.format.specs.File.Steps.{PrimeParts, SizesParts};

use crate::content::{prime_within, sizes_within, two};
use crate::fields::{PRIME_BYTES, PRIME_TAG, SIZES_BYTES, SIZES_TAG};
use crate::judge::judge_head;
use crate::reader::Reader;
use crate::refusals::Refusal;

#[derive(Clone, Copy)]
pub struct Header {
    pub p: u32,
    pub n: u8,
    pub a: u8,
    pub b: u8,
}

// The field of p: p, and what follows the field.
pub fn prime_field(file: &[u8]) -> Result<(u32, &[u8]), Refusal>
    ensures { Judgement (prime_field.tests file.now) (PrimeParts file.entry) result }
{
    let (body, rest) = judge_head(file, PRIME_TAG, PRIME_BYTES)?;
    let p = two(body[0], body[1]);
    if !prime_within(p) {
        return Err(Refusal::NotPrime);
    }
    Ok((p, rest))
}

// The field of n, a, b, in a file of this p: the header, and what follows the field.
pub fn sizes_field(sizes: &[u8], p: u32) -> Result<(Header, &[u8]), Refusal>
    ensures { Judgement (sizes_field.tests sizes.now) (SizesParts p sizes.entry) result }
{
    let (body, rest) = judge_head(sizes, SIZES_TAG, SIZES_BYTES)?;
    let n = body[0];
    let a = body[1];
    let b = body[2];
    if !sizes_within(usize::from(n), usize::from(a), usize::from(b)) {
        return Err(Refusal::SizesBeyond);
    }
    Ok((Header { p, n, a, b }, rest))
}

// What a file says before its rows, where it is not refused.
pub fn read_header(file: &[u8]) -> Result<Header, Refusal>
    ensures { HeaderRead (header file.now) result }
{
    let (p, sizes) = Reader::open(file).prime()?;
    let (header, rows) = sizes.sizes(p)?;
    rows.rows(header)?;
    Ok(header)
}

// The same of an unnumbered file: a field of numbers is not due in it.
pub fn read_unnumbered_header(file: &[u8]) -> Result<Header, Refusal>
    ensures { HeaderRead (unnumbered_header file.now) result }
{
    let (p, sizes) = Reader::open(file).prime()?;
    let (header, rows) = sizes.sizes(p)?;
    rows.unnumbered_rows(header)?;
    Ok(header)
}

// Whether a file is accepted, or why not.
pub fn judge_file(file: &[u8]) -> Result<(), Refusal>
    ensures { refusal_of result ≡ judge file.now }
{
    read_header(file)?;
    Ok(())
}
