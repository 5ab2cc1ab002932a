//! The steps of a job.

ghost use Rattle.std.specs.Prelude.{◌≡◌, ◌↔◌, IsTrue, bytes_eq};
ghost use Rattle.std.specs.List.{list_any};
ghost use Rattle.jb_job.specs.Kept.{HaveOwnIds};

use crate::job::Step;
use jb_base::MAX_STEPS;
use std::marker::Model;

/// The steps of a job, in order: 1 to 16, no two with the same id (own choices).
#[derive(Debug, Drop)]
pub struct Steps {
    steps: Vec<Step>,
}

impl Model for Steps {
    ghost use Rattle.std.specs.Prelude.{List};
    ghost use Rattle.jb_job.specs.Kept.{AreSteps};
    ghost use Rattle.jb_job.specs.Records.{StepRecord};

    ghost Value = { List StepRecord };

    ghost view = { λ s. s.steps.items };

    ghost invariant = { λ s. AreSteps s.steps.items };
}

/// Whether a step has the id.
pub(crate) fn has_id(steps: &[Step], id: &str) -> bool
    ensures { result ≡ list_any (λ s. bytes_eq s.id id.now) steps.now }
{
    steps.iter().any(|step| step.id() == id)
}

/// Whether no two steps have the same id.
fn have_own_ids(steps: &[Step]) -> bool
    ensures { IsTrue result ↔ HaveOwnIds steps.now }
{
    for i in 0..steps.len() {
        if has_id(&steps[..i], steps[i].id()) {
            return false;
        }
    }
    true
}

impl Steps {
    ghost use Rattle.std.specs.Prelude.{◌≡◌, ◌↔◌, IsTrue};
    ghost use Rattle.jb_job.specs.Kept.{AreSteps};

    /// Whether these may be the steps of a job: 1 to 16, no two with the same id.
    pub fn fit(steps: &[Step]) -> bool
        ensures { IsTrue result ↔ AreSteps steps.now }
    {
        1 <= steps.len() && steps.len() <= MAX_STEPS && have_own_ids(steps)
    }

    /// The list of steps that fit. It takes over their memory.
    pub fn new(steps: Vec<Step>) -> Steps
        requires { AreSteps steps.items }
        ensures { result ≡ steps.items }
    {
        Steps { steps }
    }

    /// The steps, in order.
    pub fn as_slice(&self) -> &[Step]
        ensures value { result.now ≡ self.now }
        ensures kept { AreSteps result.now }
    {
        self.steps.as_slice()
    }

    /// The steps, by value. Takes no memory.
    pub fn into_vec(self) -> Vec<Step>
        ensures value { result.items ≡ self }
        ensures kept { AreSteps self }
    {
        let Steps { steps } = self;
        steps
    }
}
