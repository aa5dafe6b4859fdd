// The calls for a host in C. The crate `solvability_c` exports them, as the archive.
#![tactic(auto)]

mod calls;

pub use calls::{
    wundreska_accepts, wundreska_answer, wundreska_blocks, wundreska_check, wundreska_degree,
    wundreska_edit, wundreska_mixed, wundreska_multipliers, wundreska_open, wundreska_reason,
};
