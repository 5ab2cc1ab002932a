//! The artifacts of a chunk step: what reads, processes, writes and reports on the records of a partition.
//!
//! - `interfaces`: what an item reader, an item processor, an item writer and a collector answer.
//! - `artifacts`: the four of a partition together, of known types or in boxes; `boxes`: a boxed artifact is an artifact.
//! - `item`, `view`: what is read and written, and what a collector sees.
//! - `lending_reader`, `packing_processor`, `packed_writer`, `packed_results`: the same interfaces, with no copy and no
//!   allocation for a record; `packed_artifacts`: the four of a partition that have them.
//! - `faults`, `fault_plans`, `fault_places`: when the calls for a record fail, and how that is found.
//! - `table_reader`, `prefix_processor`, `list_writer`, `count_collector`: ready artifacts.
#![tactic(auto)]

mod artifacts;
mod boxes;
mod count_collector;
mod fault_places;
mod fault_plans;
mod faults;
mod interfaces;
mod item;
mod lending_reader;
mod list_writer;
mod packed_artifacts;
mod packed_results;
mod packed_writer;
mod packing_processor;
mod prefix_processor;
mod table_reader;
mod view;

pub use artifacts::{Artifacts, ArtifactsOf, Meaning, fits_row};
pub use count_collector::CountCollector;
pub use fault_plans::FaultPlans;
pub use faults::{FaultList, FaultPlan};
pub use interfaces::{Collector, ItemProcessor, ItemReader, ItemWriter};
pub use item::Item;
pub use lending_reader::{LendingReader, record_of};
pub use list_writer::ListWriter;
pub use packed_artifacts::PackedArtifacts;
pub use packed_results::PackedResults;
pub use packed_writer::PackedWriter;
pub use packing_processor::PackingProcessor;
pub use prefix_processor::PrefixProcessor;
pub use table_reader::TableReader;
pub use view::RowView;
