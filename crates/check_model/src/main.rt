// The program `check`: the file of a model on standard input, the report of its layered rank on standard output. It only reads, calls and
// writes. One byte more than the longest file has is enough to refuse whatever follows a file's end. Where a read fails, what was
// read before it is the input; where a write fails, the program ends with its error.
#![tactic(auto)]

use limits::LONGEST_FILE;
use report::LONGEST_REPORT;
use std::io;

const INPUT: usize = LONGEST_FILE + 1;

fn main(rt: HostRuntime) -> io::Result<()> {
    let mut input = [0u8; INPUT];
    let length = reading::read_full(&mut rt.stdin(), &mut input);
    let mut text = [0u8; LONGEST_REPORT];
    let written = report::report_file(&input[..length], &mut text).unwrap_or(0);
    rt.write_all(&text[..written])
}
