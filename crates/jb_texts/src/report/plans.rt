//! The plans of a step's rounds.

ghost use Rattle.std.specs.Prelude.{◌≡◌, ◌++◌, flat_map, OnOk};
ghost use Rattle.jb_saved.specs.SavedTree.{tokens_of};
ghost use Rattle.jb_texts.specs.Report.{note_tree, plans_tree};

use jb_cert::PlanNote;
use json::Writer;
use std::alloc::{AllocError, Global};

/// Writes a plan's certificate, the number of its rounds and how many of them were run.
fn write_plan(alloc: Global, out: &mut Writer, note: &PlanNote) -> Result<(), AllocError>
    ensures plan { OnOk result (out.new.tokens ≡ out.old.tokens ++ tokens_of (note_tree note.now)) }
    ensures before { out.new.before ≡ out.old.before }
{
    let certificate = note.certificate;
    let text = format!(in alloc; "{certificate}")?;
    out.begin_array()?;
    out.string(text.as_str())?;
    out.u64(note.planned)?;
    out.u64(note.ran)?;
    out.end_array()
}

fn write_members(alloc: Global, out: &mut Writer, notes: &[PlanNote]) -> Result<(), AllocError>
    ensures plans { OnOk result (out.new.tokens ≡ out.old.tokens ++ flat_map (λ note. tokens_of (note_tree note)) notes.now) }
    ensures before { out.new.before ≡ out.old.before }
{
    for note in notes {
        write_plan(alloc, out, note)?;
    }
    Ok(())
}

/// Writes the list of the plans.
pub fn write_plans(alloc: Global, out: &mut Writer, notes: &[PlanNote]) -> Result<(), AllocError>
    ensures plans { OnOk result (out.new.tokens ≡ out.old.tokens ++ tokens_of (plans_tree notes.now)) }
    ensures before { out.new.before ≡ out.old.before }
{
    out.begin_array()?;
    write_members(alloc, out, notes)?;
    out.end_array()
}
