//! How few rounds a partitioned step needs, why it can't do with fewer, and whether a plan of rounds is valid.
//!
//! Each partition of the step has some chunks, to be run one after another, and each thread runs at most one chunk
//! in a round. McNaughton's bound of 1959 says how many rounds that takes: as many as the longest partition has
//! chunks, or as many as the chunks dealt evenly to the threads, whichever is more.
//!
//! - `load`: the limits, and the least number of rounds.
//! - `certificates`: short reasons why no plan has fewer rounds, and their test.
//! - `plans`: plans of slots, and the ways in which one fails to be valid.
//! - `checker`: the test of a whole plan, whoever made it.
//! - `notes`: a plan, and how much of it was run.
//! - `laws`: what holds of every load.
#![tactic(auto)]

mod certificates;
mod checker;
mod laws;
mod load;
mod notes;
mod plans;

pub use certificates::{Certificate, check_certificate, is_least_plan};
pub use checker::check_plan;
pub use laws::{
    bound_is_least, faults_are_there, lanes_are_found, places_lie_round, tests_are_exact,
    wrap_around_is_least,
};
pub use load::{fits, least_rounds};
pub use notes::PlanNote;
pub use plans::{Plan, PlanFault, Slot};
