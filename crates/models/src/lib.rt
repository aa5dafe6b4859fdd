// A layered model that is handed over, its numbers by value and its rows lent; and the verdict on a model.
#![tactic(auto)]

ghost use Rattle.std.specs.Prelude.{◌≡◌};
ghost use Rattle.models.specs.Lent.{unnumbered_lent};
ghost use Rattle.models.specs.Verdicts.{verdict_code};

// The model of p, of n columns, a constant rows and b parameter rows: the constants row by row, the parameter rows, and, where it is
// numbered, the numbers of its parameters row by row. It holds what it was given; whether that is a model is judged.
#[derive(Clone, Copy)]
pub struct LentModel<'a> {
    pub p: u32,
    pub n: usize,
    pub a: usize,
    pub b: usize,
    pub constants: &'a [u16],
    pub parameters: &'a [u64],
    pub numbers: Option<&'a [u16]>,
}

impl<'a> LentModel<'a> {
    // The model of these numbers and rows, without numbers of its parameters.
    pub fn unnumbered(
        p: u32,
        n: usize,
        a: usize,
        b: usize,
        constants: &'a [u16],
        parameters: &'a [u64],
    ) -> LentModel<'a>
        ensures { result ≡ unnumbered_lent p n a b constants.entry parameters.entry }
    {
        LentModel {
            p,
            n,
            a,
            b,
            constants,
            parameters,
            numbers: None,
        }
    }
}

// Whether a model has an answer: a column is short; each column has an equation of its own and none is left over; or some are.
#[derive(Clone, Copy, PartialEq, Eq)]
pub enum Verdict {
    Open,
    Determined,
    Surplus,
}

impl From<Verdict> for u8 {
    fn from(verdict: Verdict) -> u8
        ensures { result ≡ verdict_code verdict }
    {
        match verdict {
            Verdict::Open => 0,
            Verdict::Determined => 1,
            Verdict::Surplus => 2,
        }
    }
}
