//! A record's fields, read in place.

ghost use Rattle.std.specs.Prelude.{◌≡◌, length, option_map, OnOk};
ghost use Rattle.csv.specs.Records.{field_at, fields_of};
ghost use Rattle.jb_rows.specs.Fields.{fields_in};

use crate::packed::first_field;
use csv::ByteRecord;
use std::alloc::AllocError;
use std::marker::Model;

/// A record's fields, in the bytes that hold them packed. A contract sees their list.
#[derive(Drop)]
pub struct Row<'a> {
    bytes: &'a [u8],
}

impl<'a> Model for Row<'a> {
    ghost use Rattle.std.specs.Prelude.{ℕ, List};
    ghost use Rattle.jb_rows.specs.Fields.{fields_in};

    ghost Value = { List (List ℕ) };

    ghost view = { λ row. fields_in row.bytes.now };
}

impl<'a> Row<'a> {
    /// The fields in these bytes. Any bytes hold some.
    pub fn of(bytes: &'a [u8]) -> Row<'a>
        ensures { result ≡ fields_in bytes.now }
    {
        Row { bytes }
    }

    /// How many fields there are.
    pub fn len(&self) -> usize
        ensures { result ≡ length self.now }
    {
        count_fields(self.bytes)
    }

    /// The field of this index, the first being 0, if there is one.
    pub fn get(&self, index: usize) -> Option<&[u8]>
        ensures { option_map (λ field. field.now) result ≡ field_at self.now index }
    {
        nth_field(self.bytes, index)
    }

    /// Puts a copy of the fields into a record of `csv`, in place of those that it had.
    pub(crate) fn copy_to(&self, entry: &mut ByteRecord) -> Result<(), AllocError>
        ensures { OnOk result (fields_of entry.new ≡ self.now) }
    {
        copy_fields(self.bytes, entry)
    }
}

/// Puts a copy of the fields in packed bytes into a record of `csv`, in place of those that it had.
fn copy_fields(bytes: &[u8], entry: &mut ByteRecord) -> Result<(), AllocError>
    ensures { OnOk result (fields_of entry.new ≡ fields_in bytes.now) }
{
    entry.clear();
    let mut behind = bytes;
    'fields: loop {
        match first_field(behind) {
            Some((field, later)) => {
                entry.push_field(field)?;
                behind = later;
            }
            None => return Ok(()),
        }
    }
}

/// How many fields packed bytes have.
fn count_fields(bytes: &[u8]) -> usize
    ensures { result ≡ length (fields_in bytes.now) }
{
    let mut count = 0;
    let mut behind = bytes;
    'fields: loop {
        match first_field(behind) {
            Some((_, later)) => {
                count += 1;
                behind = later;
            }
            None => return count,
        }
    }
}

/// The field of this index in packed bytes.
fn nth_field(bytes: &[u8], index: usize) -> Option<&[u8]>
    ensures { option_map (λ field. field.now) result ≡ field_at (fields_in bytes.now) index }
{
    let mut behind = bytes;
    for _ in 0..index {
        match first_field(behind) {
            Some((_, later)) => behind = later,
            None => return None,
        }
    }
    match first_field(behind) {
        Some((field, _)) => Some(field),
        None => None,
    }
}
