//! The definitions, computed: the blocks of a range, and what is wrong with a plan. What is refused is in `cases/run`.

ghost use Rattle.std.specs.Prelude.{◌≡◌, [], ◌∷◌, Some, None, slice_get, false};
ghost use Rattle.jb_plan.specs.Blocks.{blocks, left, blocks_left};
ghost use Rattle.jb_plan.specs.Faults.{plan_errors, range_errors};
ghost use Rattle.jb_plan.specs.Plans.{threads_of};

use jb_plan::*;

/// The definition of the blocks, computed. Among the ranges are one of which two records are to be done again, one that is
/// cut into full chunks, and one of which nothing is left.
#[tactic(auto, unfolding(jb_plan::specs::Blocks::blocks))]
fn worked_blocks()
    ensures redone { blocks 1 3 7 2 ≡ record { lo = 1; hi = 2 } ∷ record { lo = 2; hi = 3 } ∷ record { lo = 3; hi = 5 } ∷ record { lo = 5; hi = 7 } ∷ [] }
    ensures number { left 1 3 7 2 ≡ 4 }
    ensures next { slice_get (blocks 1 3 7 2) 0 ≡ Some (record { lo = 1; hi = 2 }) }
    ensures full { blocks 4 4 9 2 ≡ record { lo = 4; hi = 6 } ∷ record { lo = 6; hi = 8 } ∷ record { lo = 8; hi = 9 } ∷ [] }
    ensures past { blocks 5 4 9 4 ≡ record { lo = 5; hi = 9 } ∷ [] }
    ensures none { blocks 7 7 7 2 ≡ [] }
    ensures no_number { left 7 7 7 2 ≡ 0 }
    ensures no_next { slice_get (blocks 7 7 7 2) 0 ≡ None }
    ensures most { blocks_left 0 0 10000000 1 ≡ 10000000 }
{}

/// The definition of the faults, computed on seven records.
fn worked_faults()
    ensures none { range_errors 7 [] ≡ PlanError.NoPartition ∷ [] }
    ensures reversed { range_errors 7 (record { lo = 3; hi = 2 } ∷ []) ≡ PlanError.Reversed 0 ∷ [] }
    ensures past { range_errors 7 (record { lo = 0; hi = 8 } ∷ []) ≡ PlanError.PastEnd 0 ∷ [] }
    ensures empty_between { plan_errors 7 (record { ranges = record { lo = 0; hi = 3 } ∷ record { lo = 2; hi = 2 } ∷ record { lo = 3; hi = 7 } ∷ []; threads = 4096; replace = false }) ≡ [] }
    ensures many_faults { plan_errors 7 (record { ranges = record { lo = 0; hi = 3 } ∷ record { lo = 2; hi = 8 } ∷ []; threads = 4097; replace = false }) ≡ PlanError.PastEnd 1 ∷ PlanError.Overlap 0 1 ∷ PlanError.Threads ∷ [] }
    ensures no_range { plan_errors 7 (record { ranges = []; threads = 4097; replace = false }) ≡ PlanError.NoPartition ∷ PlanError.Threads ∷ [] }
    ensures pairs { plan_errors 7 (record { ranges = record { lo = 4; hi = 7 } ∷ record { lo = 0; hi = 2 } ∷ record { lo = 1; hi = 3 } ∷ record { lo = 2; hi = 5 } ∷ []; threads = 1; replace = false }) ≡ PlanError.Overlap 0 3 ∷ PlanError.Overlap 1 2 ∷ PlanError.Overlap 2 3 ∷ [] }
    ensures threads { threads_of (record { ranges = []; threads = 4096; replace = false }) ≡ 64 }
{}

#[test]
fn definitions(_rt: HostRuntime) {
    worked_blocks();
    worked_faults();
}
