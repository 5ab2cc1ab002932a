//! Lines that say what the tests run, and lines that say what comes of it.
//!
//! A test is a text. Each line that begins with `> ` describes a run, by flags and by NAME=VALUE. What comes of the run follows it.

use jb_base::Rules;
use jb_rules::Row;
use std::alloc::{AllocError, Global};
use std::process::Abort;
use std::test::*;

/// The value that follows the name.
pub(crate) fn value<'a>(line: &'a str, name: &str) -> Option<&'a str> {
    for word in line.split_whitespace() {
        if let Some((own, value)) = word.split_once('=') {
            if own == name {
                return Some(value);
            }
        }
    }
    None
}

/// The number that follows the name.
pub(crate) fn number(line: &str, name: &str) -> Option<u64> {
    value(line, name)?.parse::<u64>().ok()
}

/// The same of 32 bits.
pub(crate) fn small(line: &str, name: &str) -> Option<u32> {
    value(line, name)?.parse::<u32>().ok()
}

/// Whether the line has the word.
pub(crate) fn has(line: &str, word: &str) -> bool {
    for own in line.split_whitespace() {
        if own == word {
            return true;
        }
    }
    false
}

/// The line's rules: the sets of classes that are skipped, retried, and retried in place, and whether one fault alone is skipped.
pub(crate) fn rules(line: &str) -> Rules {
    let skip_limit = if has(line, "one-skip") { Some(1) } else { None };
    Rules {
        skippable: number(line, "skippable").unwrap_or(0),
        retryable: number(line, "retryable").unwrap_or(0),
        no_rollback: number(line, "in-place").unwrap_or(0),
        skip_limit,
        retry_limit: 2,
    }
}

/// Adds the line itself.
pub(crate) fn add_line(text: &mut String, line: &str) -> Result<(), AllocError> {
    text.push_str(line)?;
    text.push_str("\n")
}

/// Adds the row's numbers and its state.
pub(crate) fn add_row(text: &mut String, alloc: Global, row: &Row) -> Result<(), AllocError> {
    for number in row.numbers() {
        text.push_str(format!(in alloc; "{number} ")?.as_str())?;
    }
    text.push_str(row.state.name())
}

/// Asserts that a text is the wanted one.
pub(crate) fn assert_text(rt: &impl Abort, text: &str, wanted: &str) {
    assert_eq!(rt; text, wanted);
}
