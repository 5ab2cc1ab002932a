//! What the analyzer heard, partition by partition.

ghost use Rattle.std.specs.Prelude.{◌≡◌, ◌++◌, ◌∷◌, [], map, flat_map, IfOk, OnOk};
ghost use Rattle.std.specs.List.{range_with_len};
ghost use Rattle.json.specs.Token.{string};
ghost use Rattle.jb_collect.specs.Heard.{partition_heard};
ghost use Rattle.jb_saved.specs.SavedTree.{tokens_of};
ghost use Rattle.jb_collect.specs.Heard.{calls_about};
ghost use Rattle.jb_texts.specs.Report.{heard_text, heard_tree, results_tree};
ghost use Rattle.jb_texts.specs.inside.Heard.{placed};

use crate::report::text::write_text;
use crate::status::status_name;
use jb_collect::AnalyzerCall;
use json::Writer;
use std::alloc::{AllocError, Global};

/// Calls about one partition.
type Calls<'a> = Vec<&'a AnalyzerCall>;

fn partition_of(call: &AnalyzerCall) -> u32
    ensures { result ≡ partition_heard call.now }
{
    match call {
        AnalyzerCall::Collected(of, _) => *of,
        AnalyzerCall::Status(of, _) => *of,
    }
}

/// So many lists with no call.
fn empty_lists<'a>(alloc: Global, partitions: u32) -> Result<Vec<Calls<'a>>, AllocError>
    ensures { IfOk result (λ lists. map (λ list. map (λ c. c.now) list.items) lists.items ≡ map (λ p. calls_about p []) (range_with_len 0 partitions)) }
{
    let mut lists = Vec::new(alloc);
    for _ in 0..partitions {
        lists.push(Vec::new(alloc))?;
    }
    Ok(lists)
}

/// Puts the call after those about its partition. If no list is its partition's, it is left out.
fn place<'a>(call: &'a AnalyzerCall, lists: &mut [Calls<'a>]) -> Result<(), AllocError>
    ensures { OnOk result (map (λ list. map (λ c. c.now) list.items) lists.new ≡ placed call.now (map (λ list. map (λ c. c.now) list.items) lists.old)) }
{
    let partition = partition_of(call) as usize;
    if partition < lists.len() {
        lists[partition].push(call)?;
    }
    Ok(())
}

/// The calls about each of so many partitions, each call looked at once.
fn by_partition<'a>(
    alloc: Global,
    calls: &'a [AnalyzerCall],
    partitions: u32,
) -> Result<Vec<Calls<'a>>, AllocError>
    ensures { IfOk result (λ lists. map (λ list. map (λ c. c.now) list.items) lists.items ≡ map (λ p. calls_about p calls.now) (range_with_len 0 partitions)) }
{
    let mut lists = empty_lists(alloc, partitions)?;
    for call in calls {
        place(call, &mut lists)?;
    }
    Ok(lists)
}

/// Writes a collected text, or the name of a status.
fn write_call(alloc: Global, out: &mut Writer, call: &AnalyzerCall) -> Result<(), AllocError>
    ensures text { OnOk result (out.new.tokens ≡ out.old.tokens ++ string (heard_text call.now) ∷ []) }
    ensures before { out.new.before ≡ out.old.before }
{
    match call {
        AnalyzerCall::Collected(_, text) => write_text(alloc, out, text.as_slice()),
        AnalyzerCall::Status(_, status) => out.string(status_name(*status)),
    }
}

fn write_calls(alloc: Global, out: &mut Writer, calls: &[&AnalyzerCall]) -> Result<(), AllocError>
    ensures texts { OnOk result (out.new.tokens ≡ out.old.tokens ++ map (λ c. string (heard_text c.now)) calls.now) }
    ensures before { out.new.before ≡ out.old.before }
{
    for call in calls {
        write_call(alloc, out, call)?;
    }
    Ok(())
}

/// Writes the list of what these calls said.
fn write_list(alloc: Global, out: &mut Writer, calls: &[&AnalyzerCall]) -> Result<(), AllocError>
    ensures list { OnOk result (out.new.tokens ≡ out.old.tokens ++ tokens_of (results_tree (map heard_text (map (λ c. c.now) calls.now)))) }
    ensures before { out.new.before ≡ out.old.before }
{
    out.begin_array()?;
    write_calls(alloc, out, calls)?;
    out.end_array()
}

fn write_lists(alloc: Global, out: &mut Writer, lists: &[Calls<'_>]) -> Result<(), AllocError>
    ensures lists { OnOk result (out.new.tokens ≡ out.old.tokens ++ flat_map (λ list. tokens_of (results_tree (map heard_text (map (λ c. c.now) list.items)))) lists.now) }
    ensures before { out.new.before ≡ out.old.before }
{
    for list in lists {
        write_list(alloc, out, list)?;
    }
    Ok(())
}

/// Writes, for each of so many partitions, the list of what was heard of it.
pub fn write_heard(
    alloc: Global,
    out: &mut Writer,
    calls: &[AnalyzerCall],
    partitions: u32,
) -> Result<(), AllocError>
    ensures heard { OnOk result (out.new.tokens ≡ out.old.tokens ++ tokens_of (heard_tree partitions calls.now)) }
    ensures before { out.new.before ≡ out.old.before }
{
    let lists = by_partition(alloc, calls, partitions)?;
    out.begin_array()?;
    write_lists(alloc, out, &lists)?;
    out.end_array()
}
