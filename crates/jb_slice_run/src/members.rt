//! Members of a JSON object: numbers, sets of classes and limits.

ghost use Rattle.std.specs.Prelude.{◌≡◌, ◌<◌, ◌/◌, ◌%◌, ◌^◌, ◌==◌, ◌++◌, ◌∷◌, [], if◌then◌else◌, map, decimal, OnOk};
ghost use Rattle.json.specs.Token.{number};
ghost use Rattle.jb_job.specs.JobTree.{number_tree};
ghost use Rattle.jb_saved.specs.SavedTree.{tokens_of};
ghost use Rattle.jb_slice_run.specs.Members.{classes_in, classes_tree, limit_tree, member_tokens};

use json::Writer;
use std::alloc::AllocError;

/// Writes the number of a class if it is in a set.
fn write_member(out: &mut Writer, set: u64, class: u64) -> Result<(), AllocError>
    requires { class < 64 }
    ensures class { OnOk result (out.new.tokens ≡ out.old.tokens ++ map (λ class. number (decimal class)) (if (set / 2 ^ class) % 2 == 1 then class ∷ [] else [])) }
    ensures before { out.new.before ≡ out.old.before }
{
    if (set >> class) % 2 == 1 {
        out.u64(class)?;
    }
    Ok(())
}

/// Writes the numbers of the classes in a set.
#[tactic(auto, using(std::proofs::lemmas::Grind::common_steps, crate::proofs::Grown::none_below, crate::proofs::Grown::one_below))]
fn write_members(out: &mut Writer, set: u64) -> Result<(), AllocError>
    ensures classes { OnOk result (out.new.tokens ≡ out.old.tokens ++ map (λ class. number (decimal class)) (classes_in set)) }
    ensures before { out.new.before ≡ out.old.before }
{
    for class in 0..64 {
        write_member(out, set, class)?;
    }
    Ok(())
}

/// Writes a set of classes.
fn write_classes(out: &mut Writer, set: u64) -> Result<(), AllocError>
    ensures classes { OnOk result (out.new.tokens ≡ out.old.tokens ++ tokens_of (classes_tree set)) }
    ensures before { out.new.before ≡ out.old.before }
{
    out.begin_array()?;
    write_members(out, set)?;
    out.end_array()?;
    Ok(())
}

/// Writes a limit, or null for no limit.
pub(crate) fn write_limit(out: &mut Writer, limit: Option<u64>) -> Result<(), AllocError>
    ensures limit { OnOk result (out.new.tokens ≡ out.old.tokens ++ tokens_of (limit_tree limit)) }
    ensures before { out.new.before ≡ out.old.before }
{
    match limit {
        None => out.null(),
        Some(limit) => out.u64(limit),
    }
}

/// Writes a key with its number.
pub(crate) fn write_number(out: &mut Writer, name: &str, number: u64) -> Result<(), AllocError>
    ensures member { OnOk result (out.new.tokens ≡ out.old.tokens ++ member_tokens name.now (number_tree number)) }
    ensures before { out.new.before ≡ out.old.before }
{
    out.key(name)?;
    out.u64(number)
}

/// Writes a key with its set of classes.
pub(crate) fn write_set(out: &mut Writer, name: &str, set: u64) -> Result<(), AllocError>
    ensures member { OnOk result (out.new.tokens ≡ out.old.tokens ++ member_tokens name.now (classes_tree set)) }
    ensures before { out.new.before ≡ out.old.before }
{
    out.key(name)?;
    write_classes(out, set)
}
