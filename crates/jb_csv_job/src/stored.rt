//! What the files of the slices hold as a call begins. No code can read it: a call is proved for all contents.

ghost use Rattle.std.specs.Prelude.{ℕ, List, [], false};

use sqlite::Start;
use std::marker::{Brand, PhantomData};

/// What the log and the database file of each slice hold as a call begins, by the slice's number.
pub trait Stored {
    ghost log: { ℕ → List ℕ };

    ghost db: { ℕ → List ℕ };
}

impl Stored for Brand {
    ghost log = { λ _. [] };

    ghost db = { λ _. [] };
}

/// What those of one slice hold.
pub trait OneStored {
    ghost log: { List ℕ };

    ghost db: { List ℕ };
}

impl OneStored for Brand {
    ghost log = { [] };

    ghost db = { [] };
}

/// The files of a slice as they are opened hold these bytes. After a crash a torn write may leave any bytes.
#[derive(Drop)]
pub struct Before<G: OneStored>(PhantomData<G>);

impl<G: OneStored> Before<G> {
    pub fn new() -> Before<G> {
        Before(PhantomData)
    }
}

impl<G: OneStored> Start for Before<G> {
    ghost log = { G.log };

    ghost db = { G.db };

    ghost is_mixing = { false };

    fn mixes() -> bool {
        false
    }
}
