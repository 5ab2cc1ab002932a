//! The rounds of a step.
//!
//! - `run`: all of them; `plan`: those of one plan; `round`: one of them; `runner`: the desk that runs them.
//! - `ran`: what they have left so far, the tasks in a table with a place for each partition. `error`: why they have no end.

pub(crate) mod error;
pub(crate) mod plan;
pub(crate) mod ran;
pub(crate) mod round;
pub(crate) mod run;
pub(crate) mod runner;
