//! What is read, and what is written where there is no answer.

mod error;
mod input;
mod lines;
mod writing;

pub use error::ProgramError;
pub use input::{read_all, unread};
pub use writing::write_failure;
