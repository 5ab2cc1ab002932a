//! The definitions, computed: the choices of a fault, the steps of a row, and what a chunk adds. What is refused of a row is in
//! `cases/restart`.

ghost use Rattle.std.specs.Prelude.{◌≡◌, ◌∷◌, [], Some, None, codes, true, false};
ghost use Rattle.jb_rules.specs.Counts.{no_counts, is_delta, plus_counts};
ghost use Rattle.jb_rules.specs.Decide.{choice_of, is_below};
ghost use Rattle.jb_rules.specs.Numbers.{numbers_of, state_named};
ghost use Rattle.jb_rules.specs.Rows.{fresh_row, row_block, remaining_of, begun_row, repeated_row, committed_row, skips_of, rolled_row, failed_row, dropped_row};
ghost use Rattle.jb_rules.specs.Sound.{IsSoundRow};
ghost use Rattle.jb_chunk.specs.Worked.{class_e, class_f, rules_of, one_skip, two_retries};

use jb_rules::*;

/// The rule of faults, computed. Skipping and retrying may both be open, one of them, or none. A retry may roll the chunk
/// back, or repeat the call in place.
fn worked_choices()
    ensures both { choice_of (rules_of 1 1) class_e false 0 0 ≡ Choice.Retry }
    ensures both_again { choice_of (rules_of 1 1) class_e true 0 0 ≡ Choice.Skip }
    ensures skip { choice_of (rules_of 1 0) class_e false 0 0 ≡ Choice.Skip }
    ensures retry_again { choice_of (rules_of 0 1) class_e true 0 0 ≡ Choice.Retry }
    ensures none { choice_of (rules_of 0 0) class_e false 0 0 ≡ Choice.Fail }
    ensures none_again { choice_of (rules_of 0 0) class_e true 0 0 ≡ Choice.Fail }
    ensures in_place { choice_of (record (rules_of 1 1) { no_rollback = 1 }) class_e false 0 0 ≡ Choice.Again }
    ensures in_place_again { choice_of (record (rules_of 1 1) { no_rollback = 1 }) class_e true 0 0 ≡ Choice.Skip }
    ensures in_place_alone { choice_of (record (rules_of 0 1) { no_rollback = 1 }) class_e true 0 0 ≡ Choice.Again }
    ensures in_place_closed { choice_of (record (rules_of 0 0) { no_rollback = 1 }) class_e false 0 0 ≡ Choice.Fail }
    ensures other_class { choice_of (rules_of 1 1) class_f false 0 0 ≡ Choice.Fail }
    ensures its_class { choice_of (rules_of 2 2) class_f false 0 0 ≡ Choice.Retry }
    ensures at_limit { is_below (Some 1) 1 ≡ false }
    ensures no_limit { is_below None 10000000 ≡ true }
{}

/// The same where the skips, the retries or both have reached their limit, and one before it.
fn worked_limits()
    ensures skip_below { choice_of (one_skip 1 0) class_e false 0 0 ≡ Choice.Skip }
    ensures skip_over { choice_of (one_skip 1 0) class_e false 1 0 ≡ Choice.Fail }
    ensures retry_below { choice_of (two_retries 0 1) class_e true 0 1 ≡ Choice.Retry }
    ensures retry_over { choice_of (two_retries 0 1) class_e true 0 2 ≡ Choice.Fail }
    ensures retries_used { choice_of (two_retries 1 1) class_e false 0 2 ≡ Choice.Skip }
    ensures skips_used { choice_of (one_skip 1 1) class_e true 1 0 ≡ Choice.Retry }
    ensures both_over { choice_of (record (one_skip 1 1) { retry_limit = 2 }) class_e false 1 2 ≡ Choice.Fail }
    ensures both_over_again { choice_of (record (one_skip 1 1) { retry_limit = 2 }) class_e true 1 2 ≡ Choice.Fail }
    ensures in_place_below { choice_of (record (two_retries 0 1) { no_rollback = 1 }) class_e false 0 1 ≡ Choice.Again }
    ensures in_place_over { choice_of (record (two_retries 0 1) { no_rollback = 1 }) class_e false 0 2 ≡ Choice.Fail }
    ensures in_place_used { choice_of (record (two_retries 1 1) { no_rollback = 1 }) class_e false 0 2 ≡ Choice.Skip }
    ensures in_place_skips_used { choice_of (record (one_skip 1 1) { no_rollback = 1 }) class_e true 1 0 ≡ Choice.Again }
    ensures in_place_both_over { choice_of (record (one_skip 1 1) { retry_limit = 2; no_rollback = 1 }) class_e true 1 2 ≡ Choice.Fail }
{}

/// The steps of a row, computed. The partition has four records. Its first chunk of two is started, given up, started again,
/// rolled back, and done again record by record. Then the write of the rest is skipped. And a chunk with repeats in place.
fn worked_rows()
    ensures fresh { fresh_row (record { lo = 0; hi = 4 }) ≡ record { lo = 0; hi = 4; at = 0; redo = 0; retries = 0; written = 0; counts = no_counts; in_place = 0; state = RowState.Waiting } }
    ensures empty { fresh_row (record { lo = 2; hi = 2 }) ≡ record { lo = 2; hi = 2; at = 2; redo = 2; retries = 0; written = 0; counts = no_counts; in_place = 0; state = RowState.Finished } }
    ensures begun { begun_row (fresh_row (record { lo = 0; hi = 4 })) 3 ≡ record (fresh_row (record { lo = 0; hi = 4 })) { state = RowState.Running 3 } }
    ensures dropped { dropped_row (begun_row (fresh_row (record { lo = 0; hi = 4 })) 3) ≡ fresh_row (record { lo = 0; hi = 4 }) }
    ensures rolled { dropped_row (rolled_row (begun_row (fresh_row (record { lo = 0; hi = 4 })) 3) 2) ≡ record { lo = 0; hi = 4; at = 0; redo = 2; retries = 1; written = 0; counts = record no_counts { rollback = 1 }; in_place = 0; state = RowState.Waiting } }
    ensures repeated { repeated_row (fresh_row (record { lo = 0; hi = 4 })) 2 ≡ record { lo = 0; hi = 4; at = 0; redo = 0; retries = 2; written = 0; counts = no_counts; in_place = 2; state = RowState.Waiting } }
    ensures repeated_rolled { rolled_row (repeated_row (fresh_row (record { lo = 0; hi = 4 })) 2) 3 ≡ record { lo = 0; hi = 4; at = 0; redo = 3; retries = 3; written = 0; counts = record no_counts { rollback = 1 }; in_place = 2; state = RowState.Waiting } }
    ensures earlier { (rolled_row (record (fresh_row (record { lo = 0; hi = 4 })) { redo = 3 }) 2).redo ≡ 3 }
    ensures committed { committed_row (rolled_row (fresh_row (record { lo = 0; hi = 4 })) 2) 1 (record no_counts { read = 1; write = 1; commit = 1 }) ≡ record { lo = 0; hi = 4; at = 1; redo = 2; retries = 1; written = 1; counts = record no_counts { read = 1; write = 1; commit = 1; rollback = 1 }; in_place = 0; state = RowState.Waiting } }
    ensures finished { (committed_row (record (fresh_row (record { lo = 0; hi = 4 })) { at = 2 }) 4 (record no_counts { read = 2; commit = 1; write_skip = 1 })).state ≡ RowState.Finished }
    ensures failed { failed_row (begun_row (fresh_row (record { lo = 4; hi = 5 })) 0) ≡ record { lo = 4; hi = 5; at = 4; redo = 4; retries = 0; written = 0; counts = record no_counts { rollback = 1 }; in_place = 0; state = RowState.Failed } }
    ensures skips { skips_of (record (fresh_row (record { lo = 0; hi = 4 })) { counts = record no_counts { read_skip = 1; process_skip = 2; write_skip = 4 } }) ≡ 7 }
    ensures torn { IsSoundRow (record { lo = 0; hi = 3; at = 3; redo = 0; retries = 0; written = 0; counts = record no_counts { read = 3; commit = 1; write_skip = 1 }; in_place = 0; state = RowState.Finished }) }
{}

/// The next chunk of such a row, and how many it has left, computed: as it begins, where a chunk is to be done again, and as it runs.
#[tactic(auto, unfolding(jb_plan::specs::Blocks::blocks))]
fn worked_chunks()
    ensures block { row_block 2 (fresh_row (record { lo = 0; hi = 4 })) ≡ record { lo = 0; hi = 2 } }
    ensures single { row_block 2 (record (fresh_row (record { lo = 0; hi = 4 })) { redo = 2 }) ≡ record { lo = 0; hi = 1 } }
    ensures remaining { remaining_of 2 (fresh_row (record { lo = 0; hi = 4 })) RowState.Waiting ≡ 2 }
    ensures running { remaining_of 2 (fresh_row (record { lo = 0; hi = 4 })) (RowState.Running 3) ≡ 0 }
{}

/// What a chunk of two records may add to the counts, computed: one read skipped and one item written, or a write skipped
/// with one result. And what it may not: a record too few, two commits, a rollback, an item that nothing became of,
/// a skipped write with no result, or with one written.
fn worked_deltas()
    ensures written { is_delta 2 (record no_counts { read = 1; write = 1; commit = 1; read_skip = 1 }) ≡ true }
    ensures skipped { is_delta 2 (record no_counts { read = 2; commit = 1; filter = 1; write_skip = 1 }) ≡ true }
    ensures few { is_delta 2 (record no_counts { read = 1; write = 1; commit = 1 }) ≡ false }
    ensures commits { is_delta 2 (record no_counts { read = 2; write = 2; commit = 2 }) ≡ false }
    ensures rolled { is_delta 2 (record no_counts { read = 2; write = 2; commit = 1; rollback = 1 }) ≡ false }
    ensures lost { is_delta 2 (record no_counts { read = 2; write = 1; commit = 1 }) ≡ false }
    ensures nothing { is_delta 2 (record no_counts { read = 2; commit = 1; filter = 2; write_skip = 1 }) ≡ false }
    ensures both { is_delta 2 (record no_counts { read = 2; write = 1; commit = 1; write_skip = 1 }) ≡ false }
{}

/// What a row's text holds, computed: its numbers in their order, and the state of a name, but that none is named `running`.
fn worked_texts()
    ensures numbers { numbers_of (record { lo = 1; hi = 2; at = 3; redo = 4; retries = 5; written = 6; counts = record { read = 7; write = 8; commit = 9; rollback = 10; read_skip = 11; process_skip = 12; filter = 13; write_skip = 14 }; in_place = 15; state = RowState.Waiting }) ≡ 1 ∷ 2 ∷ 3 ∷ 4 ∷ 5 ∷ 6 ∷ 7 ∷ 8 ∷ 9 ∷ 10 ∷ 11 ∷ 12 ∷ 13 ∷ 14 ∷ 15 ∷ [] }
    ensures finished { state_named (codes "done") ≡ Some RowState.Finished }
    ensures waiting { state_named (codes "waiting") ≡ Some RowState.Waiting }
    ensures failed { state_named (codes "failed") ≡ Some RowState.Failed }
    ensures running { state_named (codes "running") ≡ None }
    ensures sums { plus_counts (record { read = 1; write = 2; commit = 3; rollback = 4; read_skip = 5; process_skip = 6; filter = 7; write_skip = 8 }) (record { read = 80; write = 70; commit = 60; rollback = 50; read_skip = 40; process_skip = 30; filter = 20; write_skip = 10 }) ≡ record { read = 81; write = 72; commit = 63; rollback = 54; read_skip = 45; process_skip = 36; filter = 27; write_skip = 18 } }
{}

#[test]
fn definitions(_rt: HostRuntime) {
    worked_choices();
    worked_limits();
    worked_rows();
    worked_chunks();
    worked_deltas();
    worked_texts();
}
