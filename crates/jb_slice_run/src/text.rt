//! A header as a text for people.

ghost use Rattle.std.specs.Prelude.{◌≡◌, ◌++◌, map, codes, IfOk, OnOk, string_bytes};
ghost use Rattle.std.specs.Str.{IsUtf8};
ghost use Rattle.serde_json.specs.Data.{string as string_tree};
ghost use Rattle.json.specs.Token.{string as string_token};
ghost use Rattle.jb_job.specs.JobTree.{number_tree};
ghost use Rattle.jb_slice_run.specs.Members.{classes_tree, limit_tree, member_tokens};
ghost use Rattle.jb_saved.specs.SavedTree.{tokens_of};
ghost use Rattle.jb_slice_run.specs.HeaderText.{form_version, header_text, header_tree, names_tree};
ghost use Rattle.jb_slice_run.specs.Held.{header_in, limits_in};

use crate::header::{SliceHeader, SliceLimits};
use crate::members::{write_limit, write_number, write_set};
use json::Writer;
use std::alloc::{AllocError, Global};

/// The version of the form.
const VERSION: u64 = 3;

/// Writes a key with its text.
fn write_text(out: &mut Writer, name: &str, text: &str) -> Result<(), AllocError>
    ensures member { OnOk result (out.new.tokens ≡ out.old.tokens ++ member_tokens name.now (string_tree text.now)) }
    ensures before { out.new.before ≡ out.old.before }
{
    out.key(name)?;
    out.string(text)
}

/// Writes what this form is, and whose slice it is.
fn write_slice(out: &mut Writer, header: &SliceHeader) -> Result<(), AllocError>
    ensures slice { OnOk result (out.new.tokens ≡ ((out.old.tokens ++ member_tokens (codes "form") (number_tree form_version))
        ++ member_tokens (codes "job") (string_tree (header_in header.now).job.name)) ++ member_tokens (codes "slice") (number_tree (header_in header.now).number)) }
    ensures before { out.new.before ≡ out.old.before }
{
    write_number(out, "form", VERSION)?;
    write_text(out, "job", header.name)?;
    write_number(out, "slice", header.number)?;
    Ok(())
}

/// Writes how many items the slice has, and how they are divided.
fn write_sizes(out: &mut Writer, header: &SliceHeader) -> Result<(), AllocError>
    ensures sizes { OnOk result (out.new.tokens ≡ out.old.tokens ++ (member_tokens (codes "items") (number_tree (header_in header.now).items)
        ++ (member_tokens (codes "slice-length") (number_tree (header_in header.now).job.slice_length)
        ++ (member_tokens (codes "partitions") (number_tree (header_in header.now).job.partitions)
        ++ member_tokens (codes "item-count") (number_tree (header_in header.now).job.item_count))))) }
    ensures before { out.new.before ≡ out.old.before }
{
    write_number(out, "items", header.items)?;
    write_number(out, "slice-length", header.slice_length)?;
    write_number(out, "partitions", u64::from(header.partitions))?;
    write_number(out, "item-count", header.item_count)?;
    Ok(())
}

/// Writes texts.
fn write_texts(out: &mut Writer, texts: &[&str]) -> Result<(), AllocError>
    ensures texts { OnOk result (out.new.tokens ≡ out.old.tokens ++ map (λ text. string_token text.now) texts.now) }
    ensures before { out.new.before ≡ out.old.before }
{
    for text in texts {
        out.string(text)?;
    }
    Ok(())
}

/// Writes the names of the classes.
fn write_names(out: &mut Writer, names: &[&str]) -> Result<(), AllocError>
    ensures names { OnOk result (out.new.tokens ≡ out.old.tokens ++ member_tokens (codes "classes") (names_tree (map (λ name. name.now) names.now))) }
    ensures before { out.new.before ≡ out.old.before }
{
    out.key("classes")?;
    out.begin_array()?;
    write_texts(out, names)?;
    out.end_array()?;
    Ok(())
}

/// Writes what may be skipped and retried.
fn write_sets(out: &mut Writer, header: &SliceHeader) -> Result<(), AllocError>
    ensures sets { OnOk result (out.new.tokens ≡ ((out.old.tokens ++ member_tokens (codes "skippable") (classes_tree (header_in header.now).job.classes.skippable))
        ++ member_tokens (codes "retryable") (classes_tree (header_in header.now).job.classes.retryable))
        ++ member_tokens (codes "no-rollback") (classes_tree (header_in header.now).job.classes.no_rollback)) }
    ensures before { out.new.before ≡ out.old.before }
{
    write_set(out, "skippable", header.skippable)?;
    write_set(out, "retryable", header.retryable)?;
    write_set(out, "no-rollback", header.no_rollback)?;
    Ok(())
}

/// Writes a key with its limit.
fn write_key_limit(out: &mut Writer, name: &str, limit: Option<u64>) -> Result<(), AllocError>
    ensures member { OnOk result (out.new.tokens ≡ out.old.tokens ++ member_tokens name.now (limit_tree limit)) }
    ensures before { out.new.before ≡ out.old.before }
{
    out.key(name)?;
    write_limit(out, limit)
}

/// Writes the limits.
fn write_limits(out: &mut Writer, limits: SliceLimits) -> Result<(), AllocError>
    ensures limits { OnOk result (out.new.tokens ≡ ((out.old.tokens ++ member_tokens (codes "skip-limit") (limit_tree (limits_in limits).skips))
        ++ member_tokens (codes "job-skip-limit") (limit_tree (limits_in limits).job_skips)) ++ member_tokens (codes "retry-limit") (number_tree (limits_in limits).retries)) }
    ensures before { out.new.before ≡ out.old.before }
{
    write_key_limit(out, "skip-limit", limits.skips)?;
    write_key_limit(out, "job-skip-limit", limits.job_skips)?;
    write_number(out, "retry-limit", limits.retries)?;
    Ok(())
}

/// Writes a header.
fn write_header(out: &mut Writer, header: &SliceHeader) -> Result<(), AllocError>
    ensures header { OnOk result (out.new.tokens ≡ out.old.tokens ++ tokens_of (header_tree (header_in header.now))) }
    ensures before { out.new.before ≡ out.old.before }
{
    out.begin_object()?;
    write_slice(out, header)?;
    write_sizes(out, header)?;
    write_names(out, header.classes)?;
    write_sets(out, header)?;
    write_limits(out, header.limits)?;
    write_text(out, "stamp", header.stamp)?;
    out.end_object()?;
    Ok(())
}

/// The text of bytes that are a text.
fn text_of(bytes: Vec<u8>) -> Result<String, AllocError>
    requires { IsUtf8 bytes.items }
    ensures { IfOk result (λ s. string_bytes s ≡ bytes.items) }
{
    String::from_utf8(bytes).map_err(|_| AllocError)
}

/// A header as one JSON object with no space.
pub(crate) fn header_text(alloc: Global, header: &SliceHeader) -> Result<String, AllocError>
    ensures { IfOk result (λ s. string_bytes s ≡ header_text (header_in header.now)) }
{
    let mut out = Writer::new(Vec::new(alloc));
    write_header(&mut out, header)?;
    let text = text_of(out.into_inner())?;
    Ok(text)
}
