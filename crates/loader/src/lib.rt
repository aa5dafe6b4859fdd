// A file's model read into lent areas, and a constant row looked up in a file. Every public function is total, and says why it refuses.
#![tactic(auto)]

mod header;
mod lookup;
mod numbers;
mod read;

pub use header::Sizes;
pub use lookup::{judge_row, row};
pub use read::{read_file, read_rows};
