//! Plans of the fewest rounds, by McNaughton's wrap-around of 1959.
//!
//! The chunks of all partitions are laid end to end. The row is cut into lanes, one for each thread, of as many chunks as
//! the plan has rounds. A partition that a cut divides runs its part after the cut first, so its two parts never share a
//! round.
//!
//! - `places`: the row of all chunks, and which one is at a place.
//! - `cursor`: the chunk of any round and lane, with no plan in memory.
//! - `planner`: whole plans.
#![tactic(auto)]

mod cursor;
mod places;
mod planner;

pub use cursor::RoundCursor;
pub use planner::plan;
