//! How many rounds an interval takes.

ghost use Rattle.std.specs.Prelude.{◌≡◌, ◌≤◌, max};

use std::time::{Clock, Duration, Instant};

/// How many rounds each interval takes.
pub trait Pace {
    /// The number of rounds of the interval that begins now.
    fn begin(&mut self) -> u64
        ensures { 1 ≤ result };

    /// The interval is over.
    fn end(&mut self);
}

/// This many rounds for each interval; 0 counts as 1.
#[derive(Clone, Copy, Debug, PartialEq, Eq)]
pub struct Rounds(pub u64);

impl Pace for Rounds {
    fn begin(&mut self) -> u64
        ensures rounds { result ≡ max self.old.0 1 }
        ensures some { 1 ≤ result }
    {
        self.0.max(1)
    }

    fn end(&mut self) {}
}

/// About a second's work for each interval, by a clock. The first interval takes one round. After an interval of less than half a second the
/// number of rounds doubles. After one of more than two seconds it is halved. If the clock can't be read, it stays.
#[derive(Drop)]
pub struct ASecond<C> {
    clock: C,
    rounds: u64,
    begun: Option<Instant>,
    ghost some: { 1 ≤ rounds },
}

/// The number of rounds after an interval that had this many and took this long.
fn next_rounds(rounds: u64, took: Duration) -> u64
    requires { 1 ≤ rounds }
    ensures { 1 ≤ result }
{
    if took < Duration::from_millis(500) {
        rounds.saturating_mul(2)
    } else if took > Duration::from_millis(2000) {
        (rounds / 2).max(1)
    } else {
        rounds
    }
}

impl<C: Clock> ASecond<C> {
    ghost use Rattle.jb_slice_run.specs.Pacing.{rounds_of};

    /// Its first interval takes one round.
    pub fn new(clock: C) -> ASecond<C>
        ensures { rounds_of result ≡ 1 }
    {
        ASecond {
            clock,
            rounds: 1,
            begun: None,
        }
    }

    /// How long the interval took, if the clock could be read.
    fn took(&self) -> Option<Duration> {
        self.begun?.elapsed(&self.clock).ok()
    }
}

impl<C: Clock> Pace for ASecond<C> {
    ghost use Rattle.jb_slice_run.specs.Pacing.{rounds_of};

    fn begin(&mut self) -> u64
        ensures rounds { result ≡ rounds_of self.old }
        ensures some { 1 ≤ result }
    {
        self.begun = Instant::now(&self.clock).ok();
        self.rounds
    }

    fn end(&mut self) {
        if let Some(took) = self.took() {
            self.rounds = next_rounds(self.rounds, took);
        }
    }
}
