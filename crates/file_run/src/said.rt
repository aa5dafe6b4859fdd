// What the program prints: lines of a label and numbers.
use format::Refusal;
use loader::Sizes;
use std::fmt::Display;
use std::io;

pub fn label(rt: &impl Print, text: &[u8]) -> io::Result<()> {
    rt.write_all(text)?;
    rt.write_all(b":")
}

pub fn end_line(rt: &impl Print) -> io::Result<()> {
    rt.write_all(b"\n")
}

pub fn numbers<T: Display>(rt: &impl Print, xs: &[T]) -> io::Result<()> {
    for x in xs {
        print!(rt; " {x}")?;
    }
    Ok(())
}

// The number of the refusal, or 0.
pub fn refusal(rt: &impl Print, judged: Result<(), Refusal>) -> io::Result<()> {
    match judged {
        Ok(()) => print!(rt; " 0"),
        Err(refusal) => print!(rt; " {}", u32::from(refusal)),
    }
}

// The refusal, and how long the file is that was written.
pub fn length(rt: &impl Print, written: Result<usize, Refusal>) -> io::Result<()> {
    match written {
        Ok(length) => print!(rt; " 0 {length}"),
        Err(refusal) => print!(rt; " {} 0", u32::from(refusal)),
    }
}

// The refusal, and the sizes of the file that was read.
pub fn sizes(rt: &impl Print, read: Result<Sizes, Refusal>) -> io::Result<()> {
    match read {
        Ok(sizes) => {
            let numbered = u8::from(sizes.numbered);
            print!(rt;
                " 0 {} {} {} {} {numbered}",
                sizes.p, sizes.n, sizes.a, sizes.b
            )
        }
        Err(refusal) => print!(rt; " {} 0 0 0 0 0", u32::from(refusal)),
    }
}

// A sum of the bytes that each byte's place goes into.
pub fn checksum(xs: &[u8]) -> u32 {
    let mut sum: u32 = 0;
    for x in xs {
        sum = (sum * 31 + u32::from(*x)) % 65521;
    }
    sum
}

// The first k bytes, or all where there are fewer.
pub fn front(xs: &[u8], k: usize) -> &[u8] {
    &xs[..k.min(xs.len())]
}
