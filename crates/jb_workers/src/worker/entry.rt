//! The event by which an attempt enters the history.

ghost use Rattle.std.specs.Prelude.{◌≡◌, false};
ghost use Rattle.jb_repo.specs.History.{is_round};
ghost use Rattle.jb_workers.specs.Events.{event_of, commit_in, commit_of};
ghost use Rattle.jb_workers.specs.inside.Fitting.{FitEvent};

use jb_chunk::Outcome;
use jb_repo::{Delta, Event};

/// The event of a lane's attempt that ended so, left so many results written, and repeated so many calls in place.
pub(crate) fn event_of(lane: u32, outcome: Outcome, written: u64, again: u64) -> Event
    requires { FitEvent outcome written again }
    ensures event { result ≡ event_of lane outcome written again }
    ensures commit { commit_in result ≡ commit_of outcome }
    ensures no_round { is_round result ≡ false }
{
    let again = again as u32;
    match outcome {
        Outcome::Committed(counts) => Event::Commit(
            lane,
            Delta::new(&counts),
            written as u32,
            again,
        ),
        Outcome::Rolled(class) => Event::Roll(lane, class, again),
        Outcome::Failed(class) => Event::Fail(lane, class, again),
        Outcome::NoMemory => Event::Drop(lane),
    }
}

/// One for a Commit.
pub(crate) fn commits_in(event: Event) -> u64
    ensures { result ≡ commit_in event }
{
    match event {
        Event::Commit(_, _, _, _) => 1,
        Event::Plan(_, _)
        | Event::Begin(_, _)
        | Event::Roll(_, _, _)
        | Event::Fail(_, _, _)
        | Event::Drop(_)
        | Event::Round
        | Event::Stop => 0,
    }
}
