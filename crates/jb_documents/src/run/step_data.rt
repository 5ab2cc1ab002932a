//! What a step works on.

use super::faults::StepFaults;
use super::records::Records;
use jb_base::Text;

/// What a step works on.
#[derive(Drop)]
pub struct StepData {
    /// The records to be read.
    pub records: Records,
    /// What each result begins with, at most 64 bytes.
    pub prefix: Text,
    /// Items that begin with this are filtered: 1 to 64 bytes.
    pub drop: Option<Text>,
    pub faults: StepFaults,
}
