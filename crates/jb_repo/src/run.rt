//! The answers to a list of events.

ghost use Rattle.std.specs.Prelude.{◌≡◌, IfOk, OnErr};
ghost use Rattle.jb_repo.specs.Answers.{AppliesAll};

use crate::events::Event;
use crate::refused::Refused;
use crate::repository::Repo;
use std::alloc::AllocError;

/// Applies the events one after another and gives the answer to each: `None` if it was accepted, else why not. If
/// there is no memory for the answers, none of the events was applied.
pub fn run_events(repo: &mut Repo, events: &[Event]) -> Result<Vec<Option<Refused>>, AllocError>
    ensures ok { IfOk result (λ answers. AppliesAll repo.old events.now answers.items repo.new) }
    ensures err { OnErr result (repo.new ≡ repo.old) }
{
    let mut answers = Vec::with_capacity(repo.allocator(), events.len())?;
    for event in events {
        match answers.push(repo.apply(*event).err()) {
            Ok(()) => {}
            Err(_) => unreachable!(),
        }
    }
    Ok(answers)
}
