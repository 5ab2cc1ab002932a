//! Partition mappers: how the records of a step are divided among partitions.
//!
//! - `mapper`: the interface.
//! - `even`: as many even ranges as are asked for.
//! - `fixed`: the same plan for any number of records.
#![tactic(auto)]

mod even;
mod fixed;
mod mapper;

pub use even::{EvenMapper, even_cover, even_plan_is_runnable};
pub use fixed::FixedMapper;
pub use mapper::PartitionMapper;
