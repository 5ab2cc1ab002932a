//! How far the last plan of a history has come.

ghost use Rattle.std.specs.Prelude.{◌≡◌, ◌<◌, List, [], ◌∷◌};
ghost use Rattle.jb_base.specs.Limits.{max_events};
ghost use Rattle.jb_repo.specs.History.{is_plan_open};
ghost use Rattle.jb_repo.specs.inside.Projection.{ShowPlan};

use crate::events::Event;

/// How many plans there were, how far the last one has come, and whether a stop was asked for.
#[derive(Drop)]
pub struct PlanProgress {
    /// How many events are plans.
    pub count: u64,
    /// The rounds of the last plan.
    planned: u64,
    /// The Rounds after it.
    used: u64,
    /// Whether an event after it ends it, so that the next Round closes it.
    ended: bool,
    /// Whether a Round after it has closed it.
    closed: bool,
    /// Whether a stop was asked for.
    pub stopping: bool,
}

impl PlanProgress {
    /// No plan.
    pub fn new() -> Self
        ensures { ShowPlan result [] }
    {
        PlanProgress {
            count: 0,
            planned: 0,
            used: 0,
            ended: false,
            closed: false,
            stopping: false,
        }
    }

    /// Whether a plan is open: its rounds are not used up, and nothing closed it.
    pub fn is_open(&self) -> bool
        ensures { (past : List Event) → ShowPlan self.now past → result ≡ is_plan_open past }
    {
        self.used < self.planned && !self.closed
    }

    /// One more event.
    pub fn note(&mut self, event: Event)
        requires count { self.old.count < max_events }
        requires used { self.old.used < max_events }
        ensures { (past : List Event) → ShowPlan self.old past → ShowPlan self.new (event ∷ past) }
    {
        match event {
            Event::Plan(rounds, _) => {
                self.count += 1;
                self.planned = rounds;
                self.used = 0;
                self.ended = false;
                self.closed = false;
            }
            Event::Round => {
                self.used += 1;
                self.closed = self.closed || self.ended;
            }
            Event::Roll(_, _, _) | Event::Fail(_, _, _) | Event::Drop(_) => self.ended = true,
            Event::Stop => {
                self.ended = true;
                self.stopping = true;
            }
            Event::Begin(_, _) | Event::Commit(_, _, _, _) => {}
        }
    }
}
