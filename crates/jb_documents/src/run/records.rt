//! The records of a step.

use jb_base::PackedList;
use std::marker::Model;

/// The records of a step in order, at most 10,000,000 of at most 4,096 bytes each. Contracts see the list of their
/// bytes.
#[derive(Drop)]
pub struct Records {
    list: PackedList,
}

impl Model for Records {
    ghost use Rattle.std.specs.Prelude.{ℕ, List, ◌≤◌, length};
    ghost use Rattle.jb_base.specs.Limits.{max_records};

    ghost Value = { List (List ℕ) };

    ghost view = { λ r. r.list };

    ghost invariant = { λ r. length r.list ≤ max_records };
}

impl Records {
    ghost use Rattle.std.specs.Prelude.{◌≡◌, ◌≤◌, length};
    ghost use Rattle.jb_base.specs.Limits.{max_records};

    /// The list of these records, whose memory it keeps.
    pub fn new(list: PackedList) -> Records
        requires { length list ≤ max_records }
        ensures { result ≡ list }
    {
        Records { list }
    }

    /// The records, in order.
    pub fn as_list(&self) -> &PackedList
        ensures value { result.now ≡ self.now }
        ensures few { length result.now ≤ max_records }
    {
        &self.list
    }

    /// The records, by value. Takes no memory.
    pub fn into_list(self) -> PackedList
        ensures value { result ≡ self }
        ensures few { length result ≤ max_records }
    {
        let Records { list } = self;
        list
    }
}
