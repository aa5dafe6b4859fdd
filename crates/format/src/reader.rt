// The field reader: it carries the unread rest of a file from field to field. Each function takes it apart and calls one on the
// slice, and where more follows hands back a reader of that.
ghost use Rattle.std.specs.Prelude.{◌≡◌};
ghost use Rattle.format.specs.Refusals.{first_refusal};
ghost use Rattle.format.specs.Refused.{refusal_of};
ghost use Rattle.format.specs.File.Piece.{closed, Judgement};
ghost use Rattle.format.specs.File.Format.{prime_field, sizes_field, row_fields};
ghost use Rattle.format.specs.File.Unnumbered.{unnumbered_rows};
ghost use Rattle.format.specs.File.Steps.{PrimeRead, SizesRead, p_known, all_known, said_of, prime_said, sizes_said, rows_said};

use crate::header::{Header, prime_field, sizes_field};
use crate::judge::{judge_row_fields, judge_unnumbered_rows};
use crate::refusals::Refusal;

#[derive(Clone, Copy)]
pub struct Reader<'a> {
    pub rest: &'a [u8],
}

impl<'a> Reader<'a> {
    // Before the first field.
    pub fn open(file: &'a [u8]) -> Reader<'a>
        ensures { result.rest ≡ file.entry }
    {
        Reader { rest: file }
    }

    pub fn prime(self) -> Result<(u32, Reader<'a>), Refusal>
        ensures judged { Judgement (prime_field.tests self.entry.rest.now) (PrimeRead self.entry.rest) result }
        ensures said { said_of (λ parts. p_known parts.0) result ≡ prime_said self.entry.rest.now }
    {
        let (p, rest) = prime_field(self.rest)?;
        Ok((p, Reader { rest }))
    }

    pub fn sizes(self, p: u32) -> Result<(Header, Reader<'a>), Refusal>
        ensures judged { Judgement (sizes_field.tests self.entry.rest.now) (SizesRead p self.entry.rest) result }
        ensures said { said_of (λ parts. all_known parts.0) result ≡ sizes_said self.entry.rest.now (p_known p) }
    {
        let (header, rest) = sizes_field(self.rest, p)?;
        Ok((header, Reader { rest }))
    }

    // The fields from tag 3 on, up to the end of the file.
    pub fn rows(self, header: Header) -> Result<(), Refusal>
        ensures judged { refusal_of result ≡ first_refusal (closed (row_fields header.p (header.n, header.a, header.b)) self.entry.rest.now) }
        ensures said { said_of (λ _. all_known header) result ≡ rows_said self.entry.rest.now (all_known header) }
    {
        judge_row_fields(self.rest, header)
    }

    // The same of an unnumbered file.
    pub fn unnumbered_rows(self, header: Header) -> Result<(), Refusal>
        ensures { refusal_of result ≡ first_refusal (closed (unnumbered_rows header.p (header.n, header.a, header.b)) self.entry.rest.now) }
    {
        judge_unnumbered_rows(self.rest, header)
    }
}
