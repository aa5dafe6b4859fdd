// What the descent works with: a model with its powers, and the bounds that the rounds lower.
use crate::ModelPowers;
use limits::MOST_COLUMNS;

// A model with its powers, but for its constants, which the rounds change: its prime, the sizes, and the parameter rows.
#[derive(Clone, Copy)]
pub struct PoweredModel<'m> {
    pub p: u32,
    pub n: usize,
    pub a: usize,
    pub b: usize,
    pub parameters: &'m [u64],
    pub powers: ModelPowers<'m>,
}

// The levels of rows and the heights of columns.
#[derive(Drop)]
pub struct Bounds {
    pub levels: [u16; MOST_COLUMNS],
    pub heights: [u16; MOST_COLUMNS],
}
