//! Steps over threads.

mod answers;
mod beginning;
mod between;
mod callbacks;
mod fresh;
mod given;
mod lacking;
mod meeting;
mod memory;
mod other_desks;
mod refusals;
mod restarts;
mod resumed;
mod rows;
mod runs;
mod stopping;
mod watched;
mod ways;
