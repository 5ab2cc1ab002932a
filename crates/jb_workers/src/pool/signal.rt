//! One token between two threads: one gives it, the other waits for it.

use std::hint::spin_loop;
use std::sync::Wait;
use std::sync::atomic::{AtomicU64, Ordering};

const NOT_GIVEN: u64 = 0;

const GIVEN: u64 = 1;

const ASLEEP: u64 = 2;

/// How often a thread looks for the token before it sleeps (the crate's README has what other numbers cost).
const LOOKS: u32 = 50;

/// One token, which `give` gives and `wait` takes. A token that is given before the last one was taken is the same one. One thread
/// at a time waits.
#[derive(Drop)]
pub(crate) struct Signal {
    state: AtomicU64,
}

impl Signal {
    /// With no token given.
    pub(crate) fn new() -> Signal {
        Signal {
            state: AtomicU64::new(NOT_GIVEN),
        }
    }

    /// Gives the token, and wakes the thread that sleeps for it.
    pub(crate) fn give(&self) {
        if self.state.swap(GIVEN, Ordering::SeqCst) == ASLEEP {
            self.state.wake_one();
        }
    }

    /// Takes the token: looks for it a few times, and then sleeps until it is there.
    pub(crate) fn wait<R: Wait>(&self, rt: &R) {
        self.look();
        self.exchange(NOT_GIVEN, ASLEEP);
        // It waits for the other thread, whose `give` ends it. A sleep that ends without a token begins again.
        for _ in rt.forever() {
            if self.exchange(GIVEN, NOT_GIVEN) {
                return;
            }
            self.state.park(rt, ASLEEP as u32);
        }
    }

    /// Looks for the token a few times, and not once it is there.
    fn look(&self) {
        for _ in 0..LOOKS {
            if self.state.load(Ordering::SeqCst) == GIVEN {
                return;
            }
            spin_loop();
        }
    }

    fn exchange(&self, from: u64, to: u64) -> bool {
        self.state
            .compare_exchange(from, to, Ordering::SeqCst, Ordering::SeqCst)
            .is_ok()
    }
}
