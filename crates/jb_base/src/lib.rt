//! What all crates build on, and nothing about jobs: limits, ranges, fault classes, rules, names, texts and packed lists.
//!
//! - `limits`: each limit of the code.
//! - `range`: ranges of records.
//! - `class`, `artifact_error`: fault classes, and what an artifact answers in place of a result.
//! - `rules`: what is skipped and what is retried.
//! - `listed`: lists that contracts see as lists.
//! - `name`, `text`: strings that contracts see as bytes.
//! - `packed_list`: byte strings in one buffer.
#![tactic(auto)]

mod artifact_error;
mod class;
mod limits;
mod listed;
mod name;
mod packed_list;
mod range;
mod rules;
mod text;

pub use artifact_error::ArtifactError;
pub use class::ClassId;
pub use limits::{
    DEFAULT_ITEM_COUNT, DEFAULT_RETRY_LIMIT, MAX_AFFIX, MAX_CHUNKS, MAX_CLASS_NAMES, MAX_CLASSES,
    MAX_ENTRIES, MAX_ENTRY_CLASSES, MAX_EVENTS, MAX_IN_PLACE, MAX_ITEM_COUNT, MAX_LOAD_PARTITIONS,
    MAX_NAME, MAX_PARTITIONS, MAX_PARTITIONS_ASKED, MAX_PARTS, MAX_PLACE, MAX_RANGES, MAX_RECORD,
    MAX_RECORDS, MAX_RETRY_LIMIT, MAX_ROLLBACKS, MAX_ROUNDS, MAX_SKIP_LIMIT, MAX_STEPS,
    MAX_THREADS, MAX_THREADS_ASKED, limits_are_as_defined,
};
pub use listed::Listed;
pub use name::Name;
pub use packed_list::PackedList;
pub use range::{Range, Ranges};
pub use rules::Rules;
pub use text::Text;
