// Models in files and handed over, judged; a file read field by field. Every public function is total.
#![tactic(auto)]

mod content;
pub mod fields;
mod handed_over;
mod header;
mod judge;
mod numbers;
mod reader;
mod refusals;
mod sets;

pub use content::{parameters_within, two};
pub use handed_over::judge_model;
pub use header::{Header, judge_file, read_header, read_unnumbered_header};
pub use judge::is_numbered;
pub use refusals::{Refusal, number};
pub use sets::{put_set, put_set_front};
