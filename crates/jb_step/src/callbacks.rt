//! The callbacks of a step.
//!
//! - `tell`: the analyzer's calls, for each round; `reduce`: the reducer's calls, and the step's status.
//! - `finish`: the rows at the end, compared with the repository's.

pub(crate) mod finish;
pub(crate) mod reduce;
pub(crate) mod tell;
