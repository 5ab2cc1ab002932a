//! Records of fields, one after the other.

ghost use Rattle.std.specs.Prelude.{◌≡◌, ◌<◌, ◌++◌, ◌∷◌, [], length, map, slice_index_or, MatchOption, OnErr, OnOk};
ghost use Rattle.jb_rows.specs.Even.{AreEven, IsUnevenAt};
ghost use Rattle.jb_rows.specs.Fields.{fields_in, packed};

use crate::row::Row;
use crate::row_builder::RowBuilder;
use jb_base::PackedList;
use std::alloc::{AllocError, Global};
use std::marker::Model;

/// Records of fields in one buffer, each packed. A contract sees the list of their fields.
#[derive(Drop)]
pub struct Rows {
    list: PackedList,
}

impl Model for Rows {
    ghost use Rattle.std.specs.Prelude.{ℕ, List, map};
    ghost use Rattle.jb_rows.specs.Fields.{ArePacked, fields_in};

    ghost Value = { List (List (List ℕ)) };

    ghost view = { λ rows. map fields_in rows.list };

    ghost invariant = { λ rows. ArePacked rows.list };
}

impl Rows {
    /// No record. Takes no memory.
    pub fn new(alloc: Global) -> Rows
        ensures { result ≡ [] }
    {
        Rows {
            list: PackedList::new(alloc),
        }
    }

    /// How many records there are.
    pub fn len(&self) -> usize
        ensures { result ≡ length self.now }
    {
        self.list.len()
    }

    /// The record of this index, the first being 0.
    pub fn row(&self, index: usize) -> Row<'_>
        requires { index < length self.now }
        ensures { result ≡ slice_index_or self.now index [] }
    {
        Row::of(self.list.at(index))
    }

    /// The index of the first record that has more fields or fewer than the first record, if there is one.
    pub fn first_uneven(&self) -> Option<usize>
        ensures { MatchOption result (AreEven self.now) (IsUnevenAt self.now) }
    {
        for index in 0..self.len() {
            if self.row(index).len() != self.row(0).len() {
                return Some(index);
            }
        }
        None
    }

    /// Takes the records away and keeps their memory for others.
    pub fn clear(&mut self)
        ensures { self.new ≡ [] }
    {
        self.list.truncate(0);
    }

    /// Puts a record after the others. Without memory they stay as they were.
    pub fn push(&mut self, row: &RowBuilder) -> Result<(), AllocError>
        ensures ok { OnOk result (self.new ≡ self.old ++ row.now ∷ []) }
        ensures err { OnErr result (self.new ≡ self.old) }
    {
        self.list.push(row.as_bytes())
    }

    /// The records, each packed in one string of bytes.
    pub fn as_list(&self) -> &PackedList
        ensures packed { result.now ≡ map packed self.now }
        ensures fields { map fields_in result.now ≡ self.now }
    {
        &self.list
    }

    /// The records, each packed in one string of bytes, given away.
    pub fn into_list(self) -> PackedList
        ensures packed { result ≡ map packed self }
        ensures fields { map fields_in result ≡ self }
    {
        let Rows { list } = self;
        list
    }
}
