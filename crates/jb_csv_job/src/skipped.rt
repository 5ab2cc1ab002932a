//! The list of the records that were skipped, and of those by which partitions failed.

ghost use Rattle.std.specs.Prelude.{◌≡◌, ◌++◌, ◌*◌, ◌∷◌, ◌⊎◌, ℕ, [], codes, decimal, map, IfErr, IfOk, List, OnOk};
ghost use Rattle.std.specs.Io.KnownBytes.{Appends, Keeps};
ghost use Rattle.std.specs.List.Sorted.{IsNonDecreasingBy, IsPermutation};
ghost use Rattle.jb_ready.specs.FaultClasses.{class_name};
ghost use Rattle.jb_collect.specs.declared.calls.Status.TheVariants.{Completed};
ghost use Rattle.jb_rows.specs.Fields.{fields_in};
ghost use Rattle.jb_rows.specs.Streams.{csv_rows, kept_header};
ghost use Rattle.jb_rows.specs.Texts.{copied_by};
ghost use Rattle.jb_csv_job.specs.Causes.{IsListError, IsRunError};
ghost use Rattle.jb_csv_job.specs.declared.failure.CsvJobError.TheVariants.{TooMany};
ghost use Rattle.jb_csv_job.specs.Job.{identity_of};
ghost use Rattle.jb_csv_job.specs.Reports.{line_at};
ghost use Rattle.jb_csv_job.specs.Sinks.{IsBetweenLines, lines_written};
ghost use Rattle.jb_csv_job.specs.Skipped.{IfListed, IsSliceListed, record_bytes, skipped_by, skipped_header};

use crate::asked::Asked;
use crate::failure::{CsvJobError, OutputFault};
use crate::job::CsvJob;
use crate::output::Output;
use crate::report::line_at;
use crate::sink::{CsvSink, Sink};
use jb_base::PackedList;
use jb_collect::Status;
use jb_ready::{FaultClass, name_of};
use jb_rows::{Header, RowBuilder, Rows, RowsError, RowsReader};
use jb_slice_run::{Fault, PartitionFailure, SliceEnd};
use std::alloc::{AllocError, Global};
use std::io::{Read, Write};

/// The records of a slice, with what is said of them.
#[derive(Clone, Copy)]
struct SliceRecords<'a> {
    /// Each packed.
    pub records: &'a PackedList,
    /// The line in which each begins.
    pub lines: &'a [u64],
    /// The number of the first one.
    pub first: u64,
}

/// The faults that a slice skipped, and those by which partitions failed, in the order of their records.
fn all_faults(
    alloc: Global,
    skips: &[Fault],
    failures: &[PartitionFailure],
) -> Result<Vec<Fault>, AllocError>
    ensures all { IfOk result (λ listed. IsPermutation (skips.now ++ map (λ one. one.fault) failures.now) listed.items) }
    ensures rising { IfOk result (λ listed. IsNonDecreasingBy (λ fault. fault.number) listed.items) }
{
    let mut listed = Vec::new(alloc);
    listed.extend_from_slice(skips)?;
    for failure in failures {
        listed.push(failure.fault)?;
    }
    listed.sort_by_key(|fault| fault.number)?;
    Ok(listed)
}

/// The faults that a slice skipped.
fn skipped_faults(alloc: Global, skips: &[Fault]) -> Result<Vec<Fault>, AllocError>
    ensures { IfOk result (λ listed. listed.items ≡ skips.now) }
{
    let mut listed = Vec::new(alloc);
    listed.extend_from_slice(skips)?;
    Ok(listed)
}

/// The faults of a slice that are listed: those that it skipped, and of a FAILED one those by which partitions failed too.
fn faults_of(alloc: Global, end: &SliceEnd) -> Result<Vec<Fault>, AllocError>
    ensures skipped { IfOk result (λ listed. end.now.status ≡ Completed → listed.items ≡ end.now.skips.items) }
    ensures failed { IfOk result (λ listed. (end.now.status ≡ Completed) ⊎ (IsPermutation (end.now.skips.items ++ map (λ one. one.fault) end.now.failures.items) listed.items × IsNonDecreasingBy (λ fault. fault.number) listed.items)) }
{
    match end.status {
        Status::Completed => skipped_faults(alloc, &end.skips),
        _ => all_faults(alloc, &end.skips, &end.failures),
    }
}

/// The fields that come before those of the record itself: its number, its line and its class.
fn head_of(
    head: &mut RowBuilder,
    classes: &[FaultClass],
    of: &SliceRecords,
    fault: Fault,
) -> Result<(), AllocError>
    ensures { OnOk result (head.new ≡ decimal fault.number ∷ decimal (line_at of.now.lines.now of.now.first fault.number) ∷ class_name classes.now fault.class ∷ []) }
{
    head.clear();
    head.push_number(fault.number)?;
    head.push_number(line_at(of.lines, of.first, fault.number))?;
    head.push(name_of(classes, fault.class).as_bytes())
}

/// The record of this number, packed, if `first` is the number of the first of these records; no field if it isn't among them.
fn record_at(records: &PackedList, first: u64, number: u64) -> &[u8]
    ensures { result.now ≡ record_bytes records.now first number }
{
    let place = number.saturating_sub(first) as usize;
    records.get(place).unwrap_or(&[])
}

/// A line for each of these faults, packed: the record's number, its line, its class and its fields.
fn rows_of(
    alloc: Global,
    classes: &[FaultClass],
    of: &SliceRecords,
    faults: &[Fault],
) -> Result<PackedList, AllocError>
    ensures { IfOk result (λ rows. map fields_in rows ≡ map (skipped_by (map (λ class. class.name.now) classes.now) of.now.records.now of.now.lines.now of.now.first) faults.now) }
{
    let mut rows = PackedList::new(alloc);
    let mut head = RowBuilder::new(alloc);
    for fault in faults {
        head_of(&mut head, classes, of, *fault)?;
        let record = record_at(of.records, of.first, fault.number);
        rows.push_joined(head.as_bytes(), record)?;
    }
    Ok(rows)
}

/// What the fields before those of the record are.
fn headings(alloc: Global) -> Result<RowBuilder, AllocError>
    ensures { IfOk result (λ head. head ≡ codes "number" ∷ codes "line" ∷ codes "class" ∷ []) }
{
    let mut head = RowBuilder::new(alloc);
    head.push(b"number")?;
    head.push(b"line")?;
    head.push(b"class")?;
    Ok(head)
}

/// Header rows of the list, packed: `number`, `line`, `class`, and the fields of these ones.
fn headed(alloc: Global, headers: &PackedList) -> Result<PackedList, AllocError>
    ensures { IfOk result (λ rows. map fields_in rows ≡ map skipped_header (map fields_in headers.now)) }
{
    let mut rows = PackedList::new(alloc);
    let head = headings(alloc)?;
    for index in 0..headers.len() {
        rows.push_joined(head.as_bytes(), headers.at(index))?;
    }
    Ok(rows)
}

/// The header row of the list, packed, if the one of the input is copied.
fn header_row(alloc: Global, kind: Header, header: &Rows) -> Result<PackedList, AllocError>
    ensures { IfOk result (λ rows. map fields_in rows ≡ map skipped_header (copied_by kind header.now)) }
{
    match kind {
        Header::Copied => headed(alloc, header.as_list()),
        Header::None | Header::Skipped => Ok(PackedList::new(alloc)),
    }
}

/// Why the list isn't written: a failure of its stream names its path.
fn list_failure(alloc: Global, asked: &Asked, error: CsvJobError) -> CsvJobError
    ensures { (result ≡ error) ⊎ IsListError asked.now result }
{
    let error = match error {
        CsvJobError::Rows(RowsError::Stream(error)) => error,
        other => return other,
    };
    match asked
        .skipped
        .as_deref()
        .unwrap_or("the list")
        .to_string(alloc)
    {
        Ok(path) => CsvJobError::Output {
            path,
            why: OutputFault::from(error),
        },
        Err(error) => CsvJobError::from(error),
    }
}

/// The number of a slice's first record.
fn first_record(job: &CsvJob, number: u64) -> Result<u64, CsvJobError>
    ensures first { IfOk result (λ first. first ≡ number * job.now.slice_length) }
    ensures cause { IfErr result (λ e. e ≡ TooMany) }
{
    match number.checked_mul(job.slice_length) {
        Some(first) => Ok(first),
        None => Err(CsvJobError::TooMany),
    }
}

/// Lists a slice that ended, if there is a list: a row for each record that it skipped and, if it FAILED, for each by which a partition failed.
pub(crate) fn list_slice<L: Sink>(
    alloc: Global,
    job: &CsvJob,
    asked: &Asked,
    list: &mut Option<L>,
    number: u64,
    records: &PackedList,
    lines: &[u64],
    end: &SliceEnd,
) -> Result<(), CsvJobError>
    ensures listed { OnOk result (IfListed list.old list.new (λ old new. (start : L) (before : List (List ℕ)) → L.took start old before
        → (rows : List (List ℕ)) × L.took start new (before ++ rows) × IsSliceListed (identity_of job.now).classes.names records.now lines.now (number * job.now.slice_length) end.now rows)) }
    ensures cause { IfErr result (λ e. L.may_refuse e ⊎ IsRunError asked.now e) }
{
    match list {
        Some(list) => {
            let of = SliceRecords {
                records,
                lines,
                first: first_record(job, number)?,
            };
            let faults = faults_of(alloc, end)?;
            let rows = rows_of(alloc, job.classes, &of, &faults)?;
            match list.take(&rows) {
                Ok(()) => Ok(()),
                Err(error) => Err(list_failure(alloc, asked, error)),
            }
        }
        None => Ok(()),
    }
}

/// A list over this stream, if there is one: with its header row, if the one of the input is copied.
///
/// # Errors
/// `Output`: the list isn't written. `Memory`.
pub fn begin_list<S: Write + Drop, R: Read>(
    alloc: Global,
    job: &CsvJob,
    asked: &Asked,
    reader: &RowsReader<R>,
    to: Option<S>,
) -> Result<Option<CsvSink<S>>, CsvJobError>
    ensures begun { IfOk result (λ list. IfListed to list (λ old new. IsBetweenLines job.now.options.delimiter new
        × Appends (S.contents old) (lines_written S.contents new) (csv_rows job.now.options.delimiter (map skipped_header (copied_by job.now.options.header (kept_header reader.now)))))) }
    ensures cause { IfErr result (IsListError asked.now) }
{
    let Some(to) = to else {
        return Ok(None);
    };
    let mut list = CsvSink::new(alloc, &job.options, to);
    let rows = header_row(alloc, job.options.header, reader.header())?;
    match list.take(&rows) {
        Ok(()) => Ok(Some(list)),
        Err(error) => Err(list_failure(alloc, asked, error)),
    }
}

/// The stream of a list, if there is one, after all its rows.
///
/// # Errors
/// `Output`: the list isn't written. `Memory`.
pub fn end_list<S: Write + Drop>(
    alloc: Global,
    asked: &Asked,
    list: Option<CsvSink<S>>,
) -> Result<Option<S>, CsvJobError>
    ensures kept { IfOk result (λ to. IfListed list to (λ old new. Keeps (lines_written S.contents old) (S.contents new))) }
    ensures cause { IfErr result (IsListError asked.now) }
{
    let Some(list) = list else {
        return Ok(None);
    };
    match list.finish() {
        Ok(to) => Ok(Some(to)),
        Err(error) => Err(list_failure(alloc, asked, error)),
    }
}

/// The file of `--skipped`, if it is asked for: PATH.part, which is made.
///
/// # Errors
/// `Output`: PATH is no regular file; another process writes it so; it can't be written; or its folder can't be synced. `Memory`.
pub fn open_list(host: &HostRuntime, asked: &Asked) -> Result<Option<Output>, CsvJobError> {
    match &asked.skipped {
        Some(path) => Ok(Some(Output::open(host, Some(path.as_str()))?)),
        None => Ok(None),
    }
}

/// The list is whole: PATH.part becomes PATH.
///
/// # Errors
/// `Output`.
pub fn close_list(host: &HostRuntime, list: Option<Output>) -> Result<(), CsvJobError> {
    match list {
        Some(list) => list.close(host, true),
        None => Ok(()),
    }
}
