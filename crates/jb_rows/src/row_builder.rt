//! A record that is put together, field by field.

ghost use Rattle.std.specs.Prelude.{◌≡◌, ◌++◌, ◌∷◌, [], decimal, OnOk};
ghost use Rattle.jb_rows.specs.Fields.{fields_in, packed};

use crate::packed::pack;
use itoa::Buffer;
use std::alloc::{AllocError, Global};
use std::marker::Model;

/// A record that is put together, field by field. A contract sees the list of its fields.
#[derive(Drop)]
pub struct RowBuilder {
    bytes: Vec<u8>,
}

impl Model for RowBuilder {
    ghost use Rattle.std.specs.Prelude.{ℕ, List};
    ghost use Rattle.jb_rows.specs.Fields.{IsPacked, fields_in};

    ghost Value = { List (List ℕ) };

    ghost view = { λ row. fields_in row.bytes.items };

    ghost invariant = { λ row. IsPacked row.bytes.items };
}

impl RowBuilder {
    /// No field. Takes no memory.
    #[tactic(auto, using(crate::proofs::Packing::nothing_packed))]
    pub fn new(alloc: Global) -> RowBuilder
        ensures { result ≡ [] }
    {
        RowBuilder {
            bytes: Vec::new(alloc),
        }
    }

    /// Takes the fields away and keeps their memory for others.
    pub fn clear(&mut self)
        ensures { self.new ≡ [] }
    {
        self.bytes.clear();
    }

    /// Puts a field after the others. Without memory no field is left.
    pub fn push(&mut self, field: &[u8]) -> Result<(), AllocError>
        ensures { OnOk result (self.new ≡ self.old ++ field.now ∷ []) }
    {
        match pack(&mut self.bytes, field) {
            Ok(()) => Ok(()),
            Err(_) => {
                self.bytes.clear();
                Err(AllocError)
            }
        }
    }

    /// The same of a field that is this number in decimal digits.
    pub fn push_number(&mut self, number: u64) -> Result<(), AllocError>
        ensures { OnOk result (self.new ≡ self.old ++ decimal number ∷ []) }
    {
        let mut buffer = Buffer::new();
        self.push(buffer.format(number).as_bytes())
    }

    /// The fields, packed.
    pub fn as_bytes(&self) -> &[u8]
        ensures packed { result.now ≡ packed self.now }
        ensures fields { fields_in result.now ≡ self.now }
    {
        self.bytes.as_slice()
    }
}
