// The refusals, by their causes.
ghost use Rattle.std.specs.Prelude.{◌≡◌};
ghost use Rattle.format.specs.Refused.{refusal_number, refusal_of};

// Why a call refuses. Each refusal has a number, from 1; 0 says that nothing is refused.
#[derive(Clone, Copy, PartialEq, Eq)]
pub enum Refusal {
    // whoever wrote the file or filled the model
    Truncated,
    Unexpected,
    NotPrime,
    SizesBeyond,
    ConstantBeyond,
    ParameterBeyond,
    Trailing,
    // the calling program
    AreaShort,
    RowBeyond,
    // the modeller with a mixed question
    NotMixed,
    // whoever names columns
    ColumnBeyond,
    ColumnPlaced,
    // whoever numbered the parameters
    NumberTwice,
    // whoever takes off a column that is out or puts back one that is in
    AlreadySo,
    // whoever asks for a degree
    NoDegree,
}

impl From<Refusal> for u32 {
    fn from(refusal: Refusal) -> u32
        ensures { result ≡ refusal_number refusal }
    {
        match refusal {
            Refusal::Truncated => 1,
            Refusal::Unexpected => 2,
            Refusal::NotPrime => 3,
            Refusal::SizesBeyond => 4,
            Refusal::ConstantBeyond => 5,
            Refusal::ParameterBeyond => 6,
            Refusal::Trailing => 7,
            Refusal::AreaShort => 8,
            Refusal::RowBeyond => 9,
            Refusal::NotMixed => 10,
            Refusal::ColumnBeyond => 11,
            Refusal::ColumnPlaced => 12,
            Refusal::NumberTwice => 13,
            Refusal::AlreadySo => 14,
            Refusal::NoDegree => 16,
        }
    }
}

// The number of what a call gives: 0, or that of the refusal.
pub fn number(given: Result<(), Refusal>) -> u32
    ensures { result ≡ refusal_of given }
{
    match given {
        Ok(()) => 0,
        Err(refusal) => u32::from(refusal),
    }
}
