// What the exchange works with: a model that is admitted, and the state that changes as columns are placed.
use crate::sizes::{CELLS, LINES};

// A model that is admitted, but for its constants, which the tableau shows: its prime on 16 bits, the sizes, the parameter rows, and
// the inverses that are listed for the prime.
#[derive(Clone, Copy)]
pub struct Admitted<'m, 't> {
    pub p: u16,
    pub n: usize,
    pub a: usize,
    pub b: usize,
    pub parameters: &'m [u64],
    pub inverses: &'t [u16],
}

// The tableau, and the owner of each row: rows 0 .. a are the constant rows, a .. a + b the parameter rows, and a row whose owner is n
// is free.
#[derive(Drop)]
pub struct State {
    pub cells: [u16; CELLS],
    pub owner: [u8; LINES],
}
