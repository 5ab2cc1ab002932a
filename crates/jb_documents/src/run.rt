//! The document of `run`.

mod document;
mod fault_lists;
mod faults;
mod records;
mod step_data;
mod step_fields;

pub(crate) use document::{document_data, document_job};
pub use document::{DataList, Document, read_document};
pub use faults::{ClassIds, FaultKind, PlannedFault, PlannedFaults, StepFaults};
pub use records::Records;
pub use step_data::StepData;
