//! The lines of a plan of rounds, written slot by slot: no plan is held in memory.
//!
//! - `lanes`: what the lanes have in a round.
//! - `lines`: the heading, and a line for each round.

mod lanes;
mod lines;

pub use lines::write_plan;
