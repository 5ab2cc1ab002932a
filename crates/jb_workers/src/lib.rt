//! One round of tasks over threads, and the repository that they report to.
//!
//! - `desk`: a repository under one lock, with a stop flag beside it; `desk::state` is what lies under the lock, and
//!   `desk::parts` counts the parts of a share.
//! - `gate`: where a worker comes by before and after its attempt.
//! - `worker`: what one worker of a round does; `worker::lane_work` is what it is given, and `worker::entry` the event by which
//!   an attempt enters the history.
//! - `pool`: workers that stay between rounds.
//! - `round`: a round of works, one done in the caller's thread and each other in its own thread. `round::order` puts the works in order,
//!   `round::threads` does them by a pool, `round::scoped` makes one for the round, and `round::report` gathers what came of them.
//! - `laws`: what an attempt's event makes of a row, and that its numbers fit in one.
#![tactic(auto)]

mod desk;
mod gate;
mod laws;
mod pool;
mod round;
mod worker;

pub use desk::Desk;
pub use gate::{Gate, NoGate};
pub use laws::attempts_enter;
pub use pool::{Pool, start_pool};
pub use round::RoundError;
pub use worker::lane_work::Work;
pub use worker::work;
