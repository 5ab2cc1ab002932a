//! The fault classes that a job declares.

use indexmap::IndexSet;
use jb_base::ClassId;
use std::fmt;
use std::marker::Model;

/// The declared fault classes, each once, in the order in which they were first named: at most 64.
///
/// Contracts see the list of their names.
#[derive(Drop)]
pub struct Classes {
    names: IndexSet<String>,
}

impl Model for Classes {
    ghost use Rattle.std.specs.Prelude.{ℕ, List, map, length, string_bytes, ◌≤◌};
    ghost use Rattle.jb_base.specs.Limits.{max_classes};

    ghost Value = { List (List ℕ) };

    ghost view = { λ c. map string_bytes c.names.keys };

    ghost invariant = { λ c. length c.names.keys ≤ max_classes };
}

impl Classes {
    ghost use Rattle.std.specs.Prelude.{◌≡◌, ◌≤◌, ◌<◌, length, map, position, bytes_eq, string_bytes, option_map, IfSome};
    ghost use Rattle.jb_base.specs.Limits.{max_classes};

    /// The classes of a set of at most 64 names.
    pub fn new(names: IndexSet<String>) -> Classes
        requires { length names.keys ≤ max_classes }
        ensures { result ≡ map string_bytes names.keys }
    {
        Classes { names }
    }

    /// The class of a name, whose number is its place, or None if the name isn't declared.
    pub fn class(&self, name: &str) -> Option<ClassId>
        ensures { option_map (λ class. class.number) result ≡ position (bytes_eq name.now) self.now }
    {
        let place = self.place(name)?;
        Some(ClassId::new(place as u8))
    }

    /// The place of a name.
    fn place(&self, name: &str) -> Option<usize>
        ensures value { result ≡ position (bytes_eq name.now) self.now }
        ensures small { IfSome result (λ place. place < max_classes) }
    {
        self.names.get_index_of(name)
    }
}

impl fmt::Debug for Classes {
    fn fmt<W: fmt::Write>(&self, f: &mut fmt::Formatter<W>) -> fmt::Result {
        f.debug_set().entries(self.names.iter()).finish()
    }
}
