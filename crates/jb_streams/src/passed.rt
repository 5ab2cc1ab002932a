//! The bytes that passed, which only contracts read.

ghost use Rattle.std.specs.Prelude.{◌≡◌, ◌++◌, [], ◌∷◌};

use http_server::Log;
use std::marker::Model;

/// The bytes that passed, in their order. A contract sees their list. When the program runs there is nothing of it.
#[derive(Drop)]
pub struct Passed {
    log: Log<u8, ()>,
}

impl Model for Passed {
    ghost use Rattle.std.specs.Prelude.{ℕ, List, map};

    ghost Value = { List ℕ };

    ghost view = { λ p. map (λ pair. pair.0) p.log.items };
}

impl Passed {
    /// No byte passed yet.
    pub fn none() -> Passed
        ensures { result ≡ [] }
    {
        Passed { log: Log::new() }
    }

    /// One byte more passed.
    fn add(&mut self, byte: u8)
        ensures { self.new ≡ self.old ++ byte ∷ [] }
    {
        self.log = self.log.and(&byte, &());
    }

    /// These bytes passed too.
    pub fn add_all(&mut self, bytes: &[u8])
        ensures { self.new ≡ self.old ++ bytes.now }
    {
        for byte in bytes {
            self.add(*byte);
        }
    }
}
