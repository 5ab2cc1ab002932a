//! What `clap`'s matches of a command line ask for.

ghost use Rattle.std.specs.Prelude.{◌≡◌, ◌≤◌, ◌-◌, ◌^◌, [], None, Some, codes, map, option_map, option_and_then, string_bytes, unwrap_or, IfErr, IfOk, IfSome, true};
ghost use Rattle.clap.specs.Words.{first_value, found_of};
ghost use Rattle.jb_base.specs.Limits.{max_threads};
ghost use Rattle.jb_csv_job.specs.Asking.{IsInParts, digest_in, number_between, task_in};
ghost use Rattle.jb_csv_job.specs.CommandLine.{IsLine, IsWrong, is_collect};
ghost use Rattle.jb_csv_job.specs.Matched.{all_in, first_in};

use crate::asked::{Asked, Task};
use crate::failure::{CsvJobError, WordsFault};
use crate::values::{digest_in, number_between, task_in};
use clap::ArgMatches;
use jb_base::MAX_THREADS;
use std::alloc::Global;

/// The number of threads: what `--threads` says, or else the default.
fn threads_in(alloc: Global, matches: &ArgMatches<'_>, default: u32) -> Result<u32, CsvJobError>
    requires some { 1 ≤ default }
    requires few { default ≤ max_threads }
    ensures some { IfOk result (λ n. 1 ≤ n) }
    ensures few { IfOk result (λ n. n ≤ max_threads) }
    ensures said { IfOk result (λ n. IfSome (first_in matches.now (codes "threads")) (λ text. number_between 1 max_threads text ≡ Some n)) }
    ensures wrong { IfErr result (IsWrong (first_in matches.now)) }
{
    let Some(text) = matches.get_str("threads") else {
        return Ok(default);
    };
    match number_between(1, MAX_THREADS as u64, text) {
        Some(threads) => Ok(threads as u32),
        None => Err(CsvJobError::Words(WordsFault::Threads(text.to_string(alloc)?))),
    }
}

/// The number of records that `--records` says, if it is there.
fn records_in(alloc: Global, matches: &ArgMatches<'_>) -> Result<Option<u64>, CsvJobError>
    ensures said { IfOk result (λ n. n ≡ option_and_then (number_between 0 (2 ^ 64 - 1)) (first_in matches.now (codes "records"))) }
    ensures wrong { IfErr result (IsWrong (first_in matches.now)) }
{
    let Some(text) = matches.get_str("records") else {
        return Ok(None);
    };
    match number_between(0, u64::MAX, text) {
        Some(records) => Ok(Some(records)),
        None => Err(CsvJobError::Words(WordsFault::Records(text.to_string(alloc)?))),
    }
}

/// The number of bytes that `--bytes` says, if it is there.
fn bytes_in(alloc: Global, matches: &ArgMatches<'_>) -> Result<Option<u64>, CsvJobError>
    ensures said { IfOk result (λ n. n ≡ option_and_then (number_between 0 (2 ^ 64 - 1)) (first_in matches.now (codes "bytes"))) }
    ensures wrong { IfErr result (IsWrong (first_in matches.now)) }
{
    let Some(text) = matches.get_str("bytes") else {
        return Ok(None);
    };
    match number_between(0, u64::MAX, text) {
        Some(bytes) => Ok(Some(bytes)),
        None => Err(CsvJobError::Words(WordsFault::Bytes(text.to_string(alloc)?))),
    }
}

/// The digest that `--sha256` says, if it is there.
fn sha256_in(alloc: Global, matches: &ArgMatches<'_>) -> Result<Option<[u8; 32]>, CsvJobError>
    ensures said { IfOk result (λ digest. digest ≡ option_and_then digest_in (first_in matches.now (codes "sha256"))) }
    ensures wrong { IfErr result (IsWrong (first_in matches.now)) }
{
    let Some(text) = matches.get_str("sha256") else {
        return Ok(None);
    };
    match digest_in(text) {
        Some(digest) => Ok(Some(digest)),
        None => Err(CsvJobError::Words(WordsFault::Sha256(text.to_string(alloc)?))),
    }
}

/// What is done with the slices.
fn task_of(alloc: Global, matches: &ArgMatches<'_>) -> Result<Task, CsvJobError>
    ensures task { IfOk result IsInParts }
    ensures said { IfOk result (λ task. task_in (is_collect (first_in matches.now (codes "collect"))) (first_in matches.now (codes "part")) ≡ Some task) }
    ensures wrong { IfErr result (IsWrong (first_in matches.now)) }
{
    let is_collect = matches!(matches.get_str("collect"), Some("true"));
    let part = matches.get_str("part");
    match task_in(is_collect, part) {
        Some(task) => Ok(task),
        None => Err(CsvJobError::Words(match part {
            Some(text) if !is_collect => WordsFault::Part(text.to_string(alloc)?),
            _ => WordsFault::PartAndCollect,
        })),
    }
}

/// An owned copy of the text, if there is one.
fn own_text(alloc: Global, text: Option<&str>) -> Result<Option<String>, CsvJobError>
    ensures text { IfOk result (λ own. option_map string_bytes own ≡ option_map (λ t. t.now) text.entry) }
    ensures memory { IfErr result (λ e. e ≡ CsvJobError.Memory) }
{
    match text {
        Some(text) => Ok(Some(text.to_string(alloc)?)),
        None => Ok(None),
    }
}

/// Owned copies of these texts.
fn own_list(alloc: Global, texts: &[&str]) -> Result<Vec<String>, CsvJobError>
    ensures texts { IfOk result (λ own. map string_bytes own.items ≡ map (λ t. t.now) texts.now) }
    ensures memory { IfErr result (λ e. e ≡ CsvJobError.Memory) }
{
    let mut own = Vec::new(alloc);
    for text in texts {
        let text: &str = text;
        own.push(text.to_string(alloc)?)?;
    }
    Ok(own)
}

/// The stamps of `--keep-stamp`.
fn stamps_in(alloc: Global, matches: &ArgMatches<'_>) -> Result<Vec<String>, CsvJobError>
    ensures said { IfOk result (λ stamps. map string_bytes stamps.items ≡ unwrap_or (all_in matches.now (codes "keep-stamp")) []) }
    ensures memory { IfErr result (λ e. e ≡ CsvJobError.Memory) }
{
    match matches.get_strs("keep-stamp") {
        Some(texts) => own_list(alloc, texts),
        None => Ok(Vec::new(alloc)),
    }
}

/// What the matches ask for, with so many threads if they don't say how many.
pub(crate) fn asked_in(
    alloc: Global,
    matches: &ArgMatches<'_>,
    own: Option<&str>,
    default: u32,
) -> Result<Asked, CsvJobError>
    requires some { 1 ≤ default }
    requires few { default ≤ max_threads }
    ensures said { IfOk result (IsLine (first_in matches.now) (all_in matches.now) (option_map (λ o. o.now) own.entry)) }
    ensures wrong { IfErr result (IsWrong (first_in matches.now)) }
{
    let threads = threads_in(alloc, matches, default)?;
    let records = records_in(alloc, matches)?;
    let bytes = bytes_in(alloc, matches)?;
    let sha256 = sha256_in(alloc, matches)?;
    let task = task_of(alloc, matches)?;
    let output = own_text(alloc, matches.get_str("output"))?;
    if matches!(task, Task::Part { .. }) && output.is_some() {
        return Err(CsvJobError::Words(WordsFault::PartAndOutput));
    }
    let skipped = own_text(alloc, matches.get_str("skipped"))?;
    let Some(folder) = matches.get_str("FOLDER") else {
        return Err(CsvJobError::Words(WordsFault::NoFolder));
    };
    let folder = folder.to_string(alloc)?;
    let stamps = stamps_in(alloc, matches)?;
    let own = match own {
        Some(name) => own_text(alloc, matches.get_str(name))?,
        None => None,
    };
    Ok(Asked {
        threads,
        folder,
        stamps,
        task,
        records,
        bytes,
        sha256,
        output,
        skipped,
        own,
    })
}
