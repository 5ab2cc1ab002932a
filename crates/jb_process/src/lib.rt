//! The program over a reader that remembers what it gave: its contract says what was read, and that the answer is to all of it.
//!
//! - `perform`: what the arguments ask, done, and the exit status.
#![tactic(auto)]

mod perform;

pub use perform::perform_recorded;
