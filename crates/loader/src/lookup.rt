// A constant row, looked up in a file.
ghost use Rattle.std.specs.Prelude.{◌≡◌, ◌+◌, length};
ghost use Rattle.format.specs.Refused.{refusal_of};
ghost use Rattle.format.specs.File.Format.{lookup_refusal, lookup, lookup_start, lookup_length};

use crate::header::after_fields;
use format::fields::{HEAD_BYTES, said_length};
use format::{Refusal, read_header};

// Whether constant row i can be looked up, or the refusal.
pub fn judge_row(file: &[u8], i: usize) -> Result<(), Refusal>
    ensures { refusal_of result ≡ lookup_refusal file.now i }
{
    let header = read_header(file)?;
    if i >= usize::from(header.a) {
        return Err(Refusal::RowBeyond);
    }
    Ok(())
}

// The bytes of constant row i, as that part of the file itself, or an empty part where judge_row gives a refusal.
pub fn row(file: &[u8], i: usize) -> &[u8]
    ensures { (result.now ≡ lookup file.now i) × (result.ref_ptr.0 ≡ file.entry.ref_ptr.0) × (result.ref_ptr.1 ≡ lookup_start file.now i + file.entry.ref_ptr.1) × (length result.now ≡ lookup_length file.now i) }
{
    if judge_row(file, i).is_err() {
        return &file[..0];
    }
    // behind the fields of p and of the sizes, and i rows
    let rest = after_fields(file, 2 + i);
    let start = file.len() - rest.len() + HEAD_BYTES;
    let end = start + said_length(rest);
    &file[start..end]
}
