//! The job repository: events, the table of rows, and the history.
//!
//! A repository is the replay of the history that it accepted: the rows are what the list of accepted events says of
//! them. An event is accepted, or it is refused by the first reason of a fixed order and changes nothing.
//!
//! - `events`: what may happen, with `deltas`: what a commit adds; and `refused`: why an event is refused.
//! - `repository`: the repository itself; `snapshot`: what it shows of itself; `opening`: what it may be opened with.
//! - `laws`: what holds of every list of events.
//! - `run`: the answers to a whole list of events.
//! - `projection`: what the history says now, stored beside it: `owners`, `marks`, `plan_progress`, `failures`, and the rows by `table` and `steps`.
#![tactic(auto)]

mod deltas;
mod events;
mod failures;
mod laws;
mod marks;
mod opening;
mod owners;
mod plan_progress;
mod projection;
mod refused;
mod repository;
mod run;
mod snapshot;
mod steps;
mod table;

pub use deltas::Delta;
pub use events::Event;
pub use laws::{
    commits_are_consecutive, commits_are_counted, commits_are_judged, commits_take_first_blocks,
    events_add_up, events_are_few, loads_fit, one_lane_each, openings_are_accepted, order_is_free,
    plans_are_judged, plans_are_least, plans_end, rounds_are_judged, rows_are_sound, rows_live_on,
    running_lanes_may_end,
};
pub use opening::can_open;
pub use refused::Refused;
pub use repository::Repo;
pub use run::run_events;
pub use snapshot::Snapshot;
pub use table::is_at_limit;
