// The sizes of a file, and whether its parameters are numbered.
ghost use Rattle.std.specs.Prelude.{◌≡◌};
ghost use Rattle.format.specs.File.Piece.{said_rests};
ghost use Rattle.models.specs.Lent.{unnumbered_lent};
ghost use Rattle.loader.specs.FileRead.{SizesRead};

use format::fields::said_rest;
use format::{Refusal, is_numbered, read_header};
use models::LentModel;

// What a file says before its rows, and whether its parameters are numbered.
#[derive(Clone, Copy)]
pub struct Sizes {
    pub p: u32,
    pub n: usize,
    pub a: usize,
    pub b: usize,
    pub numbered: bool,
}

impl Sizes {
    // The model of these sizes and of rows that were read, without numbers.
    pub fn model<'a>(self, constants: &'a [u16], parameters: &'a [u64]) -> LentModel<'a>
        ensures { result ≡ unnumbered_lent self.p self.n self.a self.b constants.entry parameters.entry }
    {
        LentModel::unnumbered(self.p, self.n, self.a, self.b, constants, parameters)
    }
}

// The sizes of a file, or its refusal.
pub fn read_sizes(file: &[u8]) -> Result<Sizes, Refusal>
    ensures { SizesRead file.now result }
{
    let header = read_header(file)?;
    let n = usize::from(header.n);
    let a = usize::from(header.a);
    let b = usize::from(header.b);
    // behind the fields of p and of the sizes, and the constant rows
    let numbered = is_numbered(after_fields(file, 2 + a), n, b);
    Ok(Sizes {
        p: header.p,
        n,
        a,
        b,
        numbered,
    })
}

// What follows the k fields in front.
pub fn after_fields(file: &[u8], k: usize) -> &[u8]
    ensures { result.now ≡ said_rests k file.now }
{
    let mut rest = file;
    for _ in 0..k {
        rest = said_rest(rest);
    }
    rest
}
