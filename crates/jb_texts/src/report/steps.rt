//! The reports of a job's steps, one after another.

ghost use Rattle.std.specs.Prelude.{◌≡◌, ◌++◌, List, flat_map, map, [], IfOk, OnOk};
ghost use Rattle.std.specs.Str.Lossy.{utf8_lossy};
ghost use Rattle.json.specs.Print.{print};
ghost use Rattle.json.specs.Token.{Token};
ghost use Rattle.jb_saved.specs.SavedTree.{tokens_of};
ghost use Rattle.jb_texts.specs.Report.{results_tree};
ghost use Rattle.jb_texts.specs.inside.Parts.{part_text};
ghost use Rattle.jb_texts.specs.inside.Tail.{end_tokens, lists_tokens};
ghost use Rattle.jb_texts.specs.ReportTokens.{step_head, step_tail, steps_tokens};

use crate::report::heard::write_heard;
use crate::report::parts::Part;
use crate::report::plans::write_plans;
use crate::report::reducer::write_reducer;
use crate::status::status_name;
use jb_base::PackedList;
use jb_cert::PlanNote;
use jb_collect::{AnalyzerCall, ReducerCall, Status};
use jb_rules::Row;
use jb_saved::write_saved;
use json::Writer;
use std::alloc::{AllocError, Global};
use std::marker::Model;
use std::mem;

/// The reports of a job's steps, as JSON text that grows while they run. Their results aren't in it: they are between its parts as the
/// writers held them. Contracts see its tokens.
#[derive(Drop)]
pub struct StepsText {
    parts: Vec<Part>,
    // What comes after the last results.
    out: Writer,
}

impl Model for StepsText {
    ghost use Rattle.std.specs.Prelude.{◌≡◌, ◌++◌, List, flat_map, []};
    ghost use Rattle.json.specs.Token.{Token, tokens_code};
    ghost use Rattle.jb_texts.specs.inside.Parts.{PrintsOn, part_tokens};

    ghost Value = { List Token };

    ghost coded = { tokens_code };

    ghost view = { λ steps. flat_map part_tokens steps.parts.items ++ steps.out.tokens };

    ghost invariant = { λ steps. (steps.out.before ≡ []) × PrintsOn steps.parts.items steps.out.tokens };
}

/// Begins the report of a step: what was heard, and the list of the outputs.
fn write_begin(
    alloc: Global,
    out: &mut Writer,
    partitions: u32,
    heard: &[AnalyzerCall],
) -> Result<(), AllocError>
    ensures head { OnOk result (out.new.tokens ≡ out.old.tokens ++ step_head partitions heard.now) }
    ensures before { out.new.before ≡ out.old.before }
{
    out.begin_object()?;
    out.key("heard")?;
    write_heard(alloc, out, heard, partitions)?;
    out.key("outputs")?;
    out.begin_array()
}

/// Ends the list of the outputs, and writes the plans and the reducer's calls.
fn write_lists(
    alloc: Global,
    out: &mut Writer,
    plans: &[PlanNote],
    reducer: &[ReducerCall],
) -> Result<(), AllocError>
    ensures lists { OnOk result (out.new.tokens ≡ out.old.tokens ++ lists_tokens plans.now reducer.now) }
    ensures before { out.new.before ≡ out.old.before }
{
    out.end_array()?;
    out.key("plans")?;
    write_plans(alloc, out, plans)?;
    out.key("reducer")?;
    write_reducer(out, reducer)
}

/// Writes the saved rows, the status and the id of a step.
fn write_end(out: &mut Writer, rows: &[Row], status: Status, id: &str) -> Result<(), AllocError>
    ensures end { OnOk result (out.new.tokens ≡ out.old.tokens ++ end_tokens rows.now status id.now) }
    ensures before { out.new.before ≡ out.old.before }
{
    out.key("saved")?;
    write_saved(out, rows, id)?;
    out.key("status")?;
    out.string(status_name(status))?;
    out.key("step")?;
    out.string(id)?;
    out.end_object()
}

impl StepsText {
    /// The reports of no step yet.
    pub fn new(alloc: Global) -> Result<StepsText, AllocError>
        ensures { IfOk result (λ steps. steps ≡ steps_tokens []) }
    {
        let mut steps = StepsText::nothing(alloc);
        steps.out.begin_array()?;
        Ok(steps)
    }

    /// No text. Takes no memory.
    fn nothing(alloc: Global) -> StepsText
        ensures { result ≡ [] }
    {
        StepsText {
            parts: Vec::new(alloc),
            out: Writer::new(Vec::new(alloc)),
        }
    }

    /// Begins the report of a step with so many partitions, whose analyzer heard this.
    pub fn begin_step(
        &mut self,
        alloc: Global,
        partitions: u32,
        heard: &[AnalyzerCall],
    ) -> Result<(), AllocError>
        ensures { OnOk result (self.new ≡ self.old ++ step_head partitions heard.now) }
    {
        let StepsText { parts, mut out } = mem::replace(self, StepsText::nothing(alloc));
        write_begin(alloc, &mut out, partitions, heard)?;
        *self = StepsText { parts, out };
        Ok(())
    }

    /// Adds the outputs of the step's next partition: these results, whose memory it keeps. Bytes that are no UTF-8 are replaced where
    /// they are written.
    pub fn add_outputs(&mut self, alloc: Global, results: PackedList) -> Result<(), AllocError>
        ensures { OnOk result (self.new ≡ self.old ++ tokens_of (results_tree (map utf8_lossy results))) }
    {
        let StepsText { mut parts, mut out } = mem::replace(self, StepsText::nothing(alloc));
        out.begin_array()?;
        let text = out.into_inner();
        parts.push(Part { text, results })?;
        let mut out = Writer::new(Vec::new(alloc));
        out.end_array()?;
        *self = StepsText { parts, out };
        Ok(())
    }

    /// Ends the report of a step, whose partitions left these rows, in these plans, and whose reducer took these calls.
    pub fn end_step(
        &mut self,
        alloc: Global,
        rows: &[Row],
        plans: &[PlanNote],
        reducer: &[ReducerCall],
        status: Status,
        id: &str,
    ) -> Result<(), AllocError>
        ensures { OnOk result (self.new ≡ self.old ++ step_tail rows.now plans.now reducer.now status id.now) }
    {
        let StepsText { parts, mut out } = mem::replace(self, StepsText::nothing(alloc));
        write_lists(alloc, &mut out, plans, reducer)?;
        write_end(&mut out, rows, status, id)?;
        *self = StepsText { parts, out };
        Ok(())
    }

    /// The parts, and the writer of what comes after them.
    pub(crate) fn into_parts(self) -> (Vec<Part>, Writer)
        ensures before { result.1.before ≡ [] }
        ensures text { (rest : List Token) → print (self ++ rest) ≡ flat_map part_text result.0.items ++ print (result.1.tokens ++ rest) }
    {
        let StepsText { parts, out } = self;
        (parts, out)
    }
}
