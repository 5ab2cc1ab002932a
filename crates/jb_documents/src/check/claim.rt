//! A plan that someone made.

use crate::plan::ChunkLoad;
use jb_cert::{Certificate, Plan};

/// A plan that someone made for a load, and the reason that they give why none has fewer rounds.
#[derive(Drop)]
pub struct PlanClaim {
    pub load: ChunkLoad,
    pub plan: Plan,
    pub certificate: Certificate,
}
