// The program behind `./check --why COLUMN`: the file of a model on standard input, the column's number as its argument, and on standard
// output the report of why the column is not placed. It only reads, calls and writes. One byte more than the longest file has is enough
// to refuse whatever follows a file's end. Where a read fails, what was read before it is the input; where a write fails, the program
// ends with its error. An argument that is missing, no number or too long names the first column that no model has.
#![tactic(auto)]

use limits::{LONGEST_FILE, MOST_COLUMNS};
use reason_report::LONGEST_REASON_REPORT;
use std::env::Env;
use std::io;

const INPUT: usize = LONGEST_FILE + 1;

// The digits of the largest number of 64 bits.
const ARGUMENT: usize = 20;

fn main(rt: HostRuntime) -> io::Result<()> {
    let mut input = [0u8; INPUT];
    let length = reading::read_full(&mut rt.stdin(), &mut input);
    let mut argument = [0u8; ARGUMENT];
    let digits = rt.arg(1, &mut argument).unwrap_or(0);
    let column = text::read_number(&argument[..digits], MOST_COLUMNS as u16);
    let mut report = [0u8; LONGEST_REASON_REPORT];
    let written = reason_report::report_reason_file(
        &input[..length],
        column,
        &mut report,
    ).unwrap_or(0);
    rt.write_all(&report[..written])
}
