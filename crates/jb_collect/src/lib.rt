//! What a partitioned step reports on its main thread, after Jakarta Batch 2.1. To its analyzer: what the partitions collected
//! and how they ended. To its reducer: that the step begins and how it ends.
//!
//! - `calls`: what the two are called with.
//! - `interfaces`: what an analyzer and a reducer answer.
//! - `delivery`: reports one round to the analyzer.
//! - `call_list`, `list_analyzer`, `list_reducer`: ready ones, which keep the list of their calls, and may fail at a planned one.
//! - `faultless`: ready ones that keep it too, and never fail.
//! - `laws`: what holds of every delivery.
#![tactic(auto)]

mod call_list;
mod calls;
mod delivery;
mod faultless;
mod interfaces;
mod laws;
mod list_analyzer;
mod list_reducer;

pub use calls::{AnalyzerCall, PartitionStatus, ReducerCall, Status};
pub use delivery::{deliver, deliver_one};
pub use faultless::{FaultlessAnalyzer, FaultlessReducer};
pub use interfaces::{Analyzer, Reducer};
pub use laws::{calls_end_at_a_fault, partitions_are_heard_apart};
pub use list_analyzer::ListAnalyzer;
pub use list_reducer::ListReducer;
