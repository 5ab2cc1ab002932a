//! A list of calls, one of which may be answered with a fault.

ghost use Rattle.std.specs.Prelude.{◌≡◌, []};
ghost use Rattle.jb_collect.specs.Listed.{planned_at, answer_with, answered_calls_of};
ghost use Rattle.jb_collect.specs.AnsweredCalls.{TakesCall};

use jb_base::{ArtifactError, ClassId};
use std::alloc::Global;
use std::marker::Model;

/// The calls that were taken, and the number of the one that fails, if one is to, with the class of its fault. The first
/// call has the number 0.
#[derive(Drop)]
pub(crate) struct CallList<C> {
    calls: Vec<C>,
    fault: Option<(u64, ClassId)>,
}

impl<C> Model for CallList<C> {
    ghost use Rattle.jb_collect.specs.Listed.{Listed};

    ghost Value = { Listed C };

    ghost view = { λ list. record { calls = list.calls.items; fault = list.fault } };
}

impl<C: Drop> CallList<C> {
    /// No call yet. Takes no memory.
    pub(crate) fn new(alloc: Global, fault: Option<(u64, ClassId)>) -> CallList<C>
        ensures { result ≡ record { calls = []; fault = fault } }
    {
        CallList {
            calls: Vec::new(alloc),
            fault,
        }
    }

    /// Takes a call.
    pub(crate) fn take(&mut self, call: C) -> Result<(), ArtifactError>
        ensures taken { TakesCall (answered_calls_of self.old) call result (answered_calls_of self.new) }
        ensures planned { self.new.fault ≡ self.old.fault }
    {
        let fault = self.fault_at(self.calls.len() as u64);
        self.calls.push(call)?;
        answer(fault)
    }

    // The fault of the call of this number.
    fn fault_at(&self, number: u64) -> Option<ClassId>
        ensures { result ≡ planned_at self.now.fault number }
    {
        match self.fault {
            Some((planned, class)) if planned == number => Some(class),
            _ => None,
        }
    }

    /// The calls that were taken.
    pub(crate) fn as_slice(&self) -> &[C]
        ensures { result.now ≡ self.now.calls }
    {
        self.calls.as_slice()
    }
}

// What a call with this fault answers.
fn answer(fault: Option<ClassId>) -> Result<(), ArtifactError>
    ensures { result ≡ answer_with fault }
{
    match fault {
        Some(class) => Err(ArtifactError::Fault(class)),
        None => Ok(()),
    }
}
