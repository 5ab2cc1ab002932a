//! The definitions, computed on worked rows apart from the code.

ghost use Rattle.jb_chunk.specs.Worked.{FirstRunAlone, EverythingFiltered, NoRecordAlone, RetryToSingles, SkipInRedo, OneFailedAlone, TornWrite, WriteRetried, WriteFailed, ShakyWrite, RetryLimit, ReadSkip, SkippedBeforeWrite, RolledBackSkip, Repeat, RepeatLimit, RepeatedWrite, RepeatedAndRolled, RepeatedThenSkipped, SkippedAndRepeated, SkippedInRedo, RepeatedReads, AllSeen, PlainRuns};

use std::test::*;

fn worked_rows()
    ensures first_run { FirstRunAlone }
    ensures everything_filtered { EverythingFiltered }
    ensures no_record { NoRecordAlone }
    ensures retry_to_singles { RetryToSingles }
    ensures skip_in_redo { SkipInRedo }
    ensures one_failed { OneFailedAlone }
    ensures torn_write { TornWrite }
    ensures write_retried { WriteRetried }
    ensures write_failed { WriteFailed }
    ensures shaky_write { ShakyWrite }
    ensures retry_limit { RetryLimit }
    ensures read_skip { ReadSkip }
    ensures skipped_before_write { SkippedBeforeWrite }
    ensures rolled_back_skip { RolledBackSkip }
    ensures repeat { Repeat }
    ensures repeat_limit { RepeatLimit }
    ensures repeated_write { RepeatedWrite }
    ensures repeated_and_rolled { RepeatedAndRolled }
    ensures repeated_then_skipped { RepeatedThenSkipped }
    ensures skipped_and_repeated { SkippedAndRepeated }
    ensures skipped_in_redo { SkippedInRedo }
    ensures repeated_reads { RepeatedReads }
    ensures all_seen { AllSeen }
    ensures plain_runs { PlainRuns }
{}

#[test]
fn definitions(_rt: HostRuntime) {
    worked_rows();
}
