//! Worked values of the definitions, and what tests of artifacts share.

ghost use Rattle.std.specs.Prelude.{◌≡◌, [], ◌∷◌, Some, None, codes, if◌then◌else◌, ◌==◌, true, false};
ghost use Rattle.jb_artifacts.specs.declared.faults.FaultPlan.TheVariants.{Sound, Bad, Shaky};
ghost use Rattle.jb_artifacts.specs.Collected.{count_text};
ghost use Rattle.jb_artifacts.specs.Faults.{live, used};
ghost use Rattle.jb_artifacts.specs.Prefix.{prefixed};
ghost use Rattle.jb_artifacts.specs.Reader.{Reader, read_fault, after_read, record_at};
ghost use Rattle.jb_artifacts.specs.Writer.{Writer, write_fault, after_write, torn_write};

use jb_artifacts::{FaultList, FaultPlan, FaultPlans, Item, RowView};
use jb_base::{ArtifactError, ClassId, PackedList};
use jb_rules::Counts;
use std::alloc::{AllocError, Global};

/// Worked values, computed from the definitions alone.
fn worked_values(class: ClassId, later: ClassId, view: RowView)
    ensures prefix { prefixed (codes "x") None (codes "a") ≡ Some (codes "xa") }
    ensures filtered { prefixed (codes "x") (Some (codes "z")) (codes "za") ≡ None }
    ensures not_filtered { prefixed (codes "x") (Some (codes "z")) (codes "az") ≡ Some (codes "xaz") }

    // A shaky plan fails once with each class, and a bad one always.
    ensures shaky_first { live (Shaky (class ∷ later ∷ [])) ≡ Some class }
    ensures shaky_next { live (used (Shaky (class ∷ later ∷ []))) ≡ Some later }
    ensures shaky_then_sound { live (used (used (Shaky (class ∷ later ∷ [])))) ≡ None }
    ensures bad { live (used (Bad class)) ≡ Some class }

    // Three results are written, and that of record 1 is bad.
    ensures torn_write { let writer : Writer = record { written = codes "x" ∷ []; faults = λ k. if k == 1 then Bad class else Sound } in
        let results = (0, codes "xa") ∷ (1, codes "xb") ∷ (2, codes "xc") ∷ [] in
        (write_fault writer results ≡ Some class) × ((after_write writer results).written ≡ codes "x" ∷ codes "xa" ∷ []) }
    ensures whole_write { let writer : Writer = record { written = codes "x" ∷ []; faults = λ k. if k == 3 then Bad class else Sound } in
        let results = (0, codes "xa") ∷ (1, codes "xb") ∷ [] in
        (write_fault writer results ≡ None) × ((after_write writer results).written ≡ codes "x" ∷ codes "xa" ∷ codes "xb" ∷ []) }
    ensures write_without_memory { let writer : Writer = record { written = codes "x" ∷ []; faults = λ _. Sound } in
        let results = (0, codes "xa") ∷ (1, codes "xb") ∷ [] in
        (torn_write writer results 2).written ≡ codes "x" ∷ codes "xa" ∷ [] }

    // The records b and c have the numbers 5 and 6, and the reading of 5 fails.
    ensures read_fault_passed { let reader : Reader = record { first = 5; records = codes "b" ∷ codes "c" ∷ []; place = 5; faults = λ k. if k == 5 then Bad class else Sound } in
        (read_fault reader ≡ Some class) × (read_fault (after_read reader) ≡ None) × (record_at reader (after_read reader).place ≡ codes "c") }

    // A partition of three records, after its first chunk of two and after its last.
    ensures collected { count_text (record view { partition = 0; at = 2; counts = record view.counts { write = 2 }; last = false }) ≡ codes "0:2:2" }
    ensures collected_last { count_text (record view { partition = 0; at = 3; counts = record view.counts { write = 3 }; last = true }) ≡ codes "0:3:3:end" }
{}

/// The plans by which record 1 fails once.
pub(crate) fn failing_once(alloc: Global, class: ClassId) -> Result<FaultPlans, AllocError> {
    let classes = Vec::from_slice(alloc, &[class])?;
    let mut plans = FaultPlans::new(alloc);
    plans.insert(1, FaultPlan::Shaky(FaultList::from_vec(classes)))?;
    Ok(plans)
}

/// What each of those plans answers at the first call for record 1.
pub(crate) fn fault() -> ArtifactError {
    ArtifactError::Fault(ClassId::new(3))
}

/// Records of these texts.
pub(crate) fn records(alloc: Global, texts: &[&str]) -> Result<PackedList, AllocError> {
    let mut records = PackedList::new(alloc);
    for text in texts {
        records.push(text.as_bytes())?;
    }
    Ok(records)
}

/// What a call failed with.
pub(crate) fn fault_of<T: Drop>(answer: Result<T, ArtifactError>) -> Option<ArtifactError> {
    match answer {
        Ok(_) => None,
        Err(fault) => Some(fault),
    }
}

/// Whether a call answered with these bytes.
pub(crate) fn holds(answer: &Result<Option<Item>, ArtifactError>, bytes: &[u8]) -> bool {
    match answer {
        Ok(Some(item)) => item.as_slice() == bytes,
        _ => false,
    }
}
