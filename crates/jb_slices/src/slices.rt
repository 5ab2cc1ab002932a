//! Which slices a job has.

ghost use Rattle.std.specs.Prelude.{ℕ, suc, ◌≡◌, ◌<◌, List, length};
ghost use Rattle.std.specs.Bool.{MatchBool};
ghost use Rattle.jb_slices.specs.Job.{HasSlice, IsLastSlice, Job, slice_at};

/// Whether a slice with this many items is the last one of its job. Each other slice of the job has `slice_length` items. If it isn't the last,
/// there is a next one.
#[must_use]
#[tactic(auto, using(crate::proofs::Lasting::next_has))]
pub fn is_last_slice(items: u64, slice_length: u64) -> bool
    ensures last { (job : Job) (all : List (List ℕ)) (number : ℕ) → job.slice_length ≡ slice_length → HasSlice job all number
        → length (slice_at job all number) ≡ items → MatchBool result (IsLastSlice job all number) (HasSlice job all (suc number)) }
{
    items < slice_length
}
