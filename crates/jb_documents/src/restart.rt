//! The document of `restart`.

mod document;
mod fault;
mod outputs;
mod resume;
mod resume_fields;

pub use document::{RestartDocument, read_restart};
pub use fault::RestartFault;
pub use outputs::{Outputs, WriterTexts};
pub use resume::Resume;
