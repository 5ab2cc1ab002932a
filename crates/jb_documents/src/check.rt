//! The document of `check`.

mod claim;
mod document;
mod rounds;

pub use claim::PlanClaim;
pub use document::read_claim;
