//! The name of a job or of a step.

use std::marker::Model;

/// The name of a job or of a step: 1 to 64 bytes (own choice). Contracts see the bytes.
#[derive(Debug, Drop)]
pub struct Name {
    name: String,
}

impl Model for Name {
    ghost use Rattle.std.specs.Prelude.{ℕ, List, string_bytes};
    ghost use Rattle.jb_base.specs.Name.{IsName};

    ghost Value = { List ℕ };

    ghost view = { λ n. string_bytes n.name };

    ghost invariant = { λ n. IsName (string_bytes n.name) };
}

impl Name {
    ghost use Rattle.std.specs.Prelude.{◌≡◌, string_bytes};
    ghost use Rattle.jb_base.specs.Name.{IsName};

    /// The name of a string of 1 to 64 bytes. It takes over the string's memory.
    pub fn new(name: String) -> Name
        requires { IsName (string_bytes name) }
        ensures { result ≡ string_bytes name }
    {
        Name { name }
    }

    /// The name itself.
    pub fn as_str(&self) -> &str
        ensures value { result.now ≡ self.now }
        ensures kept { IsName result.now }
    {
        self.name.as_str()
    }

    /// The string, given back. Takes no memory.
    pub fn into_string(self) -> String
        ensures value { string_bytes result ≡ self }
        ensures kept { IsName self }
    {
        let Name { name } = self;
        name
    }
}
