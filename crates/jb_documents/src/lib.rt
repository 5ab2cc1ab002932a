//! The documents of the program: what the JSON text of each means, or its first fault.
//!
//! - `run`: the document of `run`, a job record and the data of each of its steps.
//! - `restart`: the document of `restart`, which says besides what the run before left.
//! - `plan`: the document of `plan`, counts of chunks and a number of threads.
//! - `check`: the document of `check`, a plan that someone made and its certificate.
//! - `borrowed`: trees that borrow their text, so that no string is made for a text of a document.
//! - `ranges`, `numbers`: whether the numbers of such a tree are in range, and which they are.
//! - `kinds`, `fields`: the fields of such a tree, and such trees taken apart by value.
//!
//! Each field is checked in the order of its document's table, and the first fault is the answer.
#![tactic(auto)]

mod borrowed;
mod check;
mod fields;
mod kinds;
mod laws;
mod numbers;
mod plan;
mod ranges;
mod restart;
mod run;

pub use check::{PlanClaim, read_claim};
pub use laws::{documents_have_trees, documents_keep_ranges, worked_documents};
pub use plan::{ChunkLoad, read_load};
pub use restart::{Outputs, RestartDocument, RestartFault, Resume, WriterTexts, read_restart};
pub use run::{
    ClassIds, DataList, Document, FaultKind, PlannedFault, PlannedFaults, Records, StepData,
    StepFaults, read_document,
};
