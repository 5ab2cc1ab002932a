//! The counts and the checkpoint of a partition, and the choice between skip, retry and failure.
//!
//! - `counts`: the metrics of a chunk step.
//! - `row`: the state of a partition, and the rules that each row keeps.
//! - `lifecycle`: a row's next chunk, and the row after it was started, committed, rolled back, failed or given up.
//! - `numbers`: a row as texts list it.
//! - `choice`: what becomes of a fault.
#![tactic(auto)]

mod choice;
mod counts;
mod lifecycle;
mod numbers;
mod row;

pub use choice::{Choice, decide};
pub use counts::{Counts, deltas_are_tested};
pub use lifecycle::rows_stay_sound;
pub use numbers::numbers_make_rows;
pub use row::{Row, RowState, rows_are_tested, unfinished_rows_go_on};
