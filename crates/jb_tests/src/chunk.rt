//! Values of worked rows, what no clause says, and memory that is refused.

mod calls;
mod counted;
mod course;
pub(crate) mod memory;
mod own;
mod rows;
mod told;
mod worked;
