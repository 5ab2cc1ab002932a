//! The job record: its types, and the Job that a JSON tree describes.
//!
//! A job names its fault classes and its chunk steps. Its keys are those of Jakarta Batch 2.1's job
//! specification language; that it is JSON, and the keys `exception-classes`, `ranges` and `override`,
//! are this project's own.
#![tactic(auto)]

mod chunk;
mod class_list;
mod class_set;
mod classes;
mod error;
mod field;
mod job;
pub mod kinds;
mod laws;
mod partition;
mod reading;
mod steps;
mod tree;

pub use classes::Classes;
pub use error::JobError;
pub use field::Field;
pub use jb_base::{ArtifactError, ClassId, Name, Range, Ranges, Rules};
pub use job::{Job, Spec, Step};
pub use laws::{jobs_have_texts, jobs_have_trees, jobs_keep_ranges, worked_jobs};
pub use reading::{job_of, read_job};
pub use steps::Steps;
pub use tree::read_tree;
