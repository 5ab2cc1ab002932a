//! The calls of a step's reducer.

ghost use Rattle.std.specs.Prelude.{◌≡◌, ◌++◌, map, OnOk};
ghost use Rattle.json.specs.Token.{string};
ghost use Rattle.jb_saved.specs.SavedTree.{tokens_of};
ghost use Rattle.jb_texts.specs.Report.{call_name, reducer_tree};

use jb_collect::{PartitionStatus, ReducerCall};
use json::Writer;
use std::alloc::AllocError;

fn call_name(call: ReducerCall) -> &'static str
    ensures { result.now ≡ call_name call }
{
    match call {
        ReducerCall::Begin => "begin",
        ReducerCall::Before => "before",
        ReducerCall::Rollback => "rollback",
        ReducerCall::After(PartitionStatus::Commit) => "after COMMIT",
        ReducerCall::After(PartitionStatus::Rollback) => "after ROLLBACK",
    }
}

fn write_names(out: &mut Writer, calls: &[ReducerCall]) -> Result<(), AllocError>
    ensures names { OnOk result (out.new.tokens ≡ out.old.tokens ++ map (λ call. string (call_name call)) calls.now) }
    ensures before { out.new.before ≡ out.old.before }
{
    for call in calls {
        out.string(call_name(*call))?;
    }
    Ok(())
}

/// Writes the list of the calls.
pub fn write_reducer(out: &mut Writer, calls: &[ReducerCall]) -> Result<(), AllocError>
    ensures calls { OnOk result (out.new.tokens ≡ out.old.tokens ++ tokens_of (reducer_tree calls.now)) }
    ensures before { out.new.before ≡ out.old.before }
{
    out.begin_array()?;
    write_names(out, calls)?;
    out.end_array()
}
