// The bytes of a column set, written.
ghost use Rattle.std.specs.Prelude.{take};
ghost use Rattle.columns.specs.Bytes.{bytes_of};
ghost use Rattle.columns.specs.ColumnSets.{whole};
ghost use Rattle.limits.specs.Limits.{set_bytes};
ghost use Rattle.format.specs.Refused.{refusal_of};
ghost use Rattle.format.specs.Refusals.{PutRoom};

use crate::refusals::Refusal;
use columns::ColumnSet;
use limits::SET_BYTES;

// The bytes of a set over the front of the area; a shorter area is refused and left alone.
pub fn put_set(out: &mut [u8], set: ColumnSet) -> Result<(), Refusal>
    ensures { PutRoom (bytes_of set_bytes (whole set)) out.old out.new (refusal_of result) }
{
    put_set_front(out, set, SET_BYTES)
}

// The same of the set's first bytes, as many as named.
pub fn put_set_front(out: &mut [u8], set: ColumnSet, many: usize) -> Result<(), Refusal>
    ensures { PutRoom (take many (bytes_of set_bytes (whole set))) out.old out.new (refusal_of result) }
{
    let end = many.min(SET_BYTES);
    if out.len() < end {
        return Err(Refusal::AreaShort);
    }
    for at in 0..end {
        out[at] = set.byte(at);
    }
    Ok(())
}
