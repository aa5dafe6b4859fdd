// Constant rows, looked up.
use crate::said;
use std::io;

// The refusal, and the row's bytes.
pub fn looked_up(rt: &impl Print, file: &[u8], i: usize) -> io::Result<()> {
    print!(rt; "row: {i}")?;
    said::refusal(rt, loader::judge_row(file, i))?;
    said::numbers(rt, loader::row(file, i))?;
    said::end_line(rt)
}
