//! What is stored for a checkpoint interval.

/// What is stored for a checkpoint interval: the text to resume from, and the results that are new since the checkpoint before.
#[derive(Debug, Drop)]
pub struct Checkpoint {
    pub saved: String,
    pub results: Vec<u8>,
}
