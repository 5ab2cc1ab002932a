//! The stack of a program's work: its size is stated, and a refusal of it is an answer.
//!
//! - `limits`: the limits of the process's stack and of its address space. `apart`: the work on a thread of its own, or on `main`'s stack.
#![tactic(auto)]

mod apart;
mod limits;

pub use apart::{AnyAnswer, run_apart};
pub use limits::{Limits, limits_of};
