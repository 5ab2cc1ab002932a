//! The bytes of a record, put together.

ghost use Rattle.std.specs.Prelude.{◌≡◌, ◌≤◌, ◌<◌, ◌++◌, ◌∷◌, [], true, count_by, length, take, IfOk, IfSome, MatchOption, OnOk};
ghost use Rattle.std.specs.Bool.{MatchBool};
ghost use Rattle.csv.specs.declared.parser.State.TheVariants as state;
ghost use Rattle.jb_rows.specs.Bytes.{EndsRecord, ReadsOn, csv_state, is_line_feed, marks_config};
ghost use Rattle.jb_rows.specs.Fields.{packed};

use crate::machine::{Marks, Place, Turn};
use crate::row_builder::RowBuilder;
use std::alloc::AllocError;

/// What the first bytes of some did.
#[derive(Clone, Copy, Debug)]
pub(crate) struct Taken {
    /// How many they are, one at least.
    pub(crate) count: usize,
    /// How many line feeds they have: one or none.
    pub(crate) lines: u64,
    /// Where the reader is after them.
    pub(crate) place: Place,
    /// Whether they end the record.
    pub(crate) is_whole: bool,
}

/// How many line feeds a byte is: one or none.
pub(crate) fn line_feeds(byte: u8) -> u64
    ensures { result ≡ count_by is_line_feed (byte ∷ []) }
{
    if byte == b'\n' { 1 } else { 0 }
}

/// Puts the field after the others of its record.
pub(crate) fn end_field(row: &mut RowBuilder, field: &mut Vec<u8>) -> Result<(), AllocError>
    ensures row { OnOk result (row.new ≡ row.old ++ field.old.items ∷ []) }
    ensures field { OnOk result (field.new.items ≡ []) }
{
    row.push(field)?;
    field.clear();
    Ok(())
}

/// Takes the first of these bytes, and those after it that may be taken with it.
fn take_some(
    marks: &Marks,
    place: Place,
    bytes: &[u8],
    row: &mut RowBuilder,
    field: &mut Vec<u8>,
) -> Result<Taken, AllocError>
    requires { 0 < length bytes.now }
    ensures some { IfOk result (λ taken. 0 < taken.count) }
    ensures within { IfOk result (λ taken. taken.count ≤ length bytes.now) }
    ensures lines { IfOk result (λ taken. taken.lines ≡ count_by is_line_feed (take taken.count bytes.now)) }
    ensures read { IfOk result (λ taken. MatchBool taken.is_whole
        (EndsRecord (marks_config marks.now) (csv_state place) row.old field.old.items (take taken.count bytes.now) row.new)
        (ReadsOn (marks_config marks.now) (csv_state place) row.old field.old.items (take taken.count bytes.now) (csv_state taken.place) row.new field.new.items)) }
{
    let byte = bytes[0];
    let lines = line_feeds(byte);
    match marks.turn(place, byte) {
        Turn::Skip(next) => Ok(Taken {
            count: 1,
            lines,
            place: next,
            is_whole: false,
        }),
        Turn::Copy(next) => {
            let count = 1 + marks.run(next, &bytes[1..]);
            field.extend_from_slice(&bytes[..count])?;
            Ok(Taken {
                count,
                lines,
                place: next,
                is_whole: false,
            })
        }
        Turn::EndField => {
            end_field(row, field)?;
            Ok(Taken {
                count: 1,
                lines,
                place: Place::StartField,
                is_whole: false,
            })
        }
        Turn::EndRecord => {
            end_field(row, field)?;
            Ok(Taken {
                count: 1,
                lines,
                place: Place::StartField,
                is_whole: true,
            })
        }
    }
}

/// Takes the next field with its end, if it has no quotes and is whole among these bytes. Else nothing is taken.
fn take_field(
    marks: &Marks,
    bytes: &[u8],
    row: &mut RowBuilder,
) -> Result<Option<Taken>, AllocError>
    requires { 0 < length bytes.now }
    ensures some { IfOk result (λ found. IfSome found (λ taken. 0 < taken.count)) }
    ensures within { IfOk result (λ found. IfSome found (λ taken. taken.count ≤ length bytes.now)) }
    ensures lines { IfOk result (λ found. IfSome found (λ taken. taken.lines ≡ count_by is_line_feed (take taken.count bytes.now))) }
    ensures read { IfOk result (λ found. MatchOption found (row.new ≡ row.old) (λ taken. MatchBool taken.is_whole
        (EndsRecord (marks_config marks.now) state.StartField row.old [] (take taken.count bytes.now) row.new)
        (ReadsOn (marks_config marks.now) state.StartField row.old [] (take taken.count bytes.now) (csv_state taken.place) row.new []))) }
{
    if marks.is_quote(bytes[0]) {
        return Ok(None);
    }
    let run = marks.plain_run(bytes);
    if run >= bytes.len() {
        return Ok(None);
    }
    let byte = bytes[run];
    let (count, lines, place) = (run + 1, line_feeds(byte), Place::StartField);
    match marks.in_field(byte) {
        Turn::EndField => {
            row.push(&bytes[..run])?;
            Ok(Some(Taken {
                count,
                lines,
                place,
                is_whole: false,
            }))
        }
        Turn::EndRecord => {
            row.push(&bytes[..run])?;
            Ok(Some(Taken {
                count,
                lines,
                place,
                is_whole: true,
            }))
        }
        Turn::Skip(_) | Turn::Copy(_) => Ok(None),
    }
}

/// Whether a field begins here, of which nothing is read.
fn is_fresh(place: Place, field: &[u8]) -> bool
    ensures { result ≡ true → (csv_state place ≡ state.StartField) × (field.now ≡ []) }
{
    match place {
        Place::StartField => field.is_empty(),
        _ => false,
    }
}

/// Takes the next field with its end, if it is whole among these bytes, or what `take_some` takes.
pub(crate) fn take_next(
    marks: &Marks,
    place: Place,
    bytes: &[u8],
    row: &mut RowBuilder,
    field: &mut Vec<u8>,
) -> Result<Taken, AllocError>
    requires { 0 < length bytes.now }
    ensures some { IfOk result (λ taken. 0 < taken.count) }
    ensures within { IfOk result (λ taken. taken.count ≤ length bytes.now) }
    ensures lines { IfOk result (λ taken. taken.lines ≡ count_by is_line_feed (take taken.count bytes.now)) }
    ensures read { IfOk result (λ taken. MatchBool taken.is_whole
        (EndsRecord (marks_config marks.now) (csv_state place) row.old field.old.items (take taken.count bytes.now) row.new)
        (ReadsOn (marks_config marks.now) (csv_state place) row.old field.old.items (take taken.count bytes.now) (csv_state taken.place) row.new field.new.items)) }
{
    if !is_fresh(place, field) {
        return take_some(marks, place, bytes, row, field);
    }
    match take_field(marks, bytes, row)? {
        Some(taken) => Ok(taken),
        None => take_some(marks, place, bytes, row, field),
    }
}

/// Whether a record that has these fields, and one of these bytes or more, is longer packed.
pub(crate) fn is_too_long(row: &RowBuilder, field: &[u8], longest: usize) -> bool
    ensures { result ≡ true → longest < length (packed (row.now ++ field.now ∷ [])) }
{
    row.as_bytes().len() + field.len() >= longest
}
