//! A reader and a writer that remember, for contracts alone, which bytes passed.
//!
//! The proofs don't know what the standard streams of a process give and take. These adaptors do: over any reader and any writer a
//! contract can name the bytes that reads gave, and those that the writer accepted.
//!
//! - `passed`: the bytes that are remembered.
//! - `recorded`: the reader; `whole`: all that it gives until its end.
//! - `recording`: the writer.
#![tactic(auto)]

mod passed;
mod recorded;
mod recording;
mod whole;

pub use recorded::Recorded;
pub use recording::Recording;
pub use whole::{Whole, read_whole};
