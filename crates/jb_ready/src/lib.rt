//! Ready parts for your own job, above `jb_artifacts`.
//!
//! - `classes`: sets of fault classes, of which a step's rules are made. `fault_class`: the classes of a job, by name.
//! - `notes`, `noting_reader`, `noting_processor`: artifacts around others; they note the faults that those answer.
//! - `lines`: the records of a text.
#![tactic(auto)]

mod classes;
mod fault_class;
pub mod lines;
mod notes;
mod noting_processor;
mod noting_reader;

pub use classes::Classes;
pub use fault_class::{Fate, FaultClass, name_of};
pub use notes::{Note, Notes};
pub use noting_processor::NotingProcessor;
pub use noting_reader::NotingReader;
