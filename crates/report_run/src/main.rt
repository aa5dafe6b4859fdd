// Prints S2's report, S9's mixed one, that of the reason for S3's column 1, and that of S4's blocks, into an area a byte longer than the
// text, one as long and one a byte shorter; then the reports of two models with surplus equations. A report is which number and which length the call gives, and
// then the whole area, which held full stops before.
#![tactic(auto)]

use format::Refusal;
use std::io;

fn main(rt: HostRuntime) -> io::Result<()> {
    // S2, document 01's file: p 1,021, n 2, one constant row 1 0, one parameter row {1}.
    let s2 =
        b"\x01\x02\x00\xFD\x03\x02\x03\x00\x02\x01\x01\x03\x04\x00\x01\x00\x00\x00\x04\x08\x00\x02\x00\x00\x00\x00\x00\x00\x00\x05\x00\x00";
    let mut longer = [b'.'; 60];
    layered(&rt, s2, &mut longer)?;
    let mut whole = [b'.'; 59];
    layered(&rt, s2, &mut whole)?;
    let mut short = [b'.'; 58];
    layered(&rt, s2, &mut short)?;
    // S9: p 1,021, n 2, two constant rows 1 1, parameter rows {0} and none.
    let s9 =
        b"\x01\x02\x00\xFD\x03\x02\x03\x00\x02\x02\x02\x03\x04\x00\x01\x00\x01\x00\x03\x04\x00\x01\x00\x01\x00\x04\x08\x00\x01\x00\x00\x00\x00\x00\x00\x00\x04\x08\x00\x00\x00\x00\x00\x00\x00\x00\x00\x05\x00\x00";
    let mut mixed_longer = [b'.'; 50];
    mixed(&rt, s9, &mut mixed_longer)?;
    let mut mixed_whole = [b'.'; 49];
    mixed(&rt, s9, &mut mixed_whole)?;
    let mut mixed_short = [b'.'; 48];
    mixed(&rt, s9, &mut mixed_short)?;
    reasons(&rt)?;
    blocks(&rt)?;
    surplus(&rt)
}

fn reasons(rt: &impl Print) -> io::Result<()> {
    // S3: p 1,021, n 2, two constant rows 1 1.
    let s3 =
        b"\x01\x02\x00\xFD\x03\x02\x03\x00\x02\x02\x00\x03\x04\x00\x01\x00\x01\x00\x03\x04\x00\x01\x00\x01\x00\x05\x00\x00";
    let mut longer = [b'.'; 28];
    reason(rt, s3, &mut longer)?;
    let mut whole = [b'.'; 27];
    reason(rt, s3, &mut whole)?;
    let mut short = [b'.'; 26];
    reason(rt, s3, &mut short)
}

fn blocks(rt: &impl Print) -> io::Result<()> {
    // S4: p 1,021, n 5, constant rows 1 1 1 1 0 and 0 2 1 1 0, parameter rows {0, 4} and {1, 4}.
    let s4 =
        b"\x01\x02\x00\xFD\x03\x02\x03\x00\x05\x02\x02\x03\x0A\x00\x01\x00\x01\x00\x01\x00\x01\x00\x00\x00\x03\x0A\x00\x00\x00\x02\x00\x01\x00\x01\x00\x00\x00\x04\x08\x00\x11\x00\x00\x00\x00\x00\x00\x00\x04\x08\x00\x12\x00\x00\x00\x00\x00\x00\x00\x05\x00\x00";
    let mut longer = [b'.'; 47];
    listing(rt, s4, &mut longer)?;
    let mut whole = [b'.'; 46];
    listing(rt, s4, &mut whole)?;
    let mut short = [b'.'; 45];
    listing(rt, s4, &mut short)
}

fn surplus(rt: &impl Print) -> io::Result<()> {
    // S11: p 1,021, n 1, two parameter rows {0}.
    let s11 =
        b"\x01\x02\x00\xFD\x03\x02\x03\x00\x01\x00\x02\x04\x08\x00\x01\x00\x00\x00\x00\x00\x00\x00\x04\x08\x00\x01\x00\x00\x00\x00\x00\x00\x00\x05\x00\x00";
    let mut area = [b'.'; 60];
    layered(rt, s11, &mut area)?;
    // p 1,021, n 1, two constant rows 1, two parameter rows without a parameter.
    let tall =
        b"\x01\x02\x00\xFD\x03\x02\x03\x00\x01\x02\x02\x03\x02\x00\x01\x00\x03\x02\x00\x01\x00\x04\x08\x00\x00\x00\x00\x00\x00\x00\x00\x00\x04\x08\x00\x00\x00\x00\x00\x00\x00\x00\x00\x05\x00\x00";
    let mut mixed_area = [b'.'; 60];
    mixed(rt, tall, &mut mixed_area)
}

fn layered(rt: &impl Print, file: &[u8], area: &mut [u8]) -> io::Result<()> {
    let printed = report::report_file(file, area);
    show(rt, b"layered", printed, area)
}

fn mixed(rt: &impl Print, file: &[u8], area: &mut [u8]) -> io::Result<()> {
    let printed = mixed_report::report_mixed_file(file, area);
    show(rt, b"mixed", printed, area)
}

fn reason(rt: &impl Print, file: &[u8], area: &mut [u8]) -> io::Result<()> {
    let printed = reason_report::report_reason_file(file, 1, area);
    show(rt, b"reason", printed, area)
}

fn listing(rt: &impl Print, file: &[u8], area: &mut [u8]) -> io::Result<()> {
    let printed = blocks_report::report_blocks_file(file, area);
    show(rt, b"blocks", printed, area)
}

fn show(
    rt: &impl Print,
    word: &[u8],
    printed: Result<usize, Refusal>,
    area: &[u8],
) -> io::Result<()> {
    rt.write_all(word)?;
    number(rt, b" area ", area.len() as u64)?;
    let (refusal, length) = match printed {
        Ok(length) => (0, length as u64),
        Err(refusal) => (u64::from(u32::from(refusal)), 0),
    };
    number(rt, b" refusal ", refusal)?;
    number(rt, b" length ", length)?;
    rt.write_all(b"\n")?;
    rt.write_all(area)?;
    rt.write_all(b"\n")
}

fn number(rt: &impl Print, word: &[u8], x: u64) -> io::Result<()> {
    rt.write_all(word)?;
    print!(rt; "{x}")
}
