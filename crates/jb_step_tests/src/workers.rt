//! Rounds of tasks over threads.

mod answers;
mod ending;
mod meeting;
mod memory;
pub(crate) mod most;
mod parts;
pub(crate) mod rounds;
mod starting;
pub(crate) mod tasks;
