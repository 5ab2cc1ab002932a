//! What the partitions work with, from one interval to the next.

ghost use Rattle.std.specs.Prelude.{◌≡◌, ◌++◌, ◌∷◌, [], filter, length, map, slice_get, IfOk, OnOk};
ghost use Rattle.std.specs.List.{zip};
ghost use Rattle.jb_step.specs.Answers.{given_back};
ghost use Rattle.jb_records.specs.Intervals.{artifacts_in};
ghost use Rattle.jb_records.specs.inside.InMemory.{is_done, is_left, is_over};

use jb_artifacts::Meaning;
use jb_rules::Row;
use std::alloc::{AllocError, Global};

/// What these partitions work with, each with its number.
pub(crate) fn numbered<A: Meaning + Drop>(
    alloc: Global,
    partitions: &[u32],
    artifacts: Vec<A>,
) -> Result<Vec<(u32, A)>, AllocError>
    requires { length artifacts.items ≡ length partitions.now }
    ensures { IfOk result (λ all. given_back A.meaning all.items ≡ zip partitions.now (map A.meaning artifacts.items)) }
{
    let mut all = Vec::new(alloc);
    let mut place = 0;
    for one in artifacts {
        all.push((partitions[place], one))?;
        place += 1;
    }
    Ok(all)
}

/// The same without their numbers.
pub(crate) fn unnumbered<A: Meaning + Drop>(
    alloc: Global,
    artifacts: Vec<(u32, A)>,
) -> Result<Vec<A>, AllocError>
    ensures { IfOk result (λ all. map A.meaning all.items ≡ artifacts_in (given_back A.meaning artifacts.items)) }
{
    let mut all = Vec::new(alloc);
    for one in artifacts {
        all.push(one.1)?;
    }
    Ok(all)
}

/// Whether the partition of this number is finished.
fn has_finished(rows: &[Row], partition: u32) -> bool
    ensures { result ≡ is_over (slice_get rows.now partition) }
{
    match rows.get(partition as usize) {
        Some(row) => row.state.is_finished(),
        None => true,
    }
}

/// Adds what one partition works with to that of the finished partitions, or to that of the others.
fn part_one<A: Meaning + Drop>(
    rows: &[Row],
    one: (u32, A),
    finished: &mut Vec<(u32, A)>,
    left: &mut Vec<(u32, A)>,
) -> Result<(), AllocError>
    ensures finished { OnOk result (given_back A.meaning finished.new.items ≡
        given_back A.meaning finished.old.items ++ filter (is_done rows.now) ((one.0, A.meaning one.1) ∷ [])) }
    ensures left { OnOk result (given_back A.meaning left.new.items ≡
        given_back A.meaning left.old.items ++ filter (is_left rows.now) ((one.0, A.meaning one.1) ∷ [])) }
{
    if has_finished(rows, one.0) {
        finished.push(one)?;
    } else {
        left.push(one)?;
    }
    Ok(())
}

/// What came back, of the partitions that are finished, and of the others.
pub(crate) fn parted<A: Meaning + Drop>(
    alloc: Global,
    rows: &[Row],
    artifacts: Vec<(u32, A)>,
) -> Result<(Vec<(u32, A)>, Vec<(u32, A)>), AllocError>
    ensures finished { IfOk result (λ parts. given_back A.meaning parts.0.items ≡ filter (is_done rows.now) (given_back A.meaning artifacts.items)) }
    ensures left { IfOk result (λ parts. given_back A.meaning parts.1.items ≡ filter (is_left rows.now) (given_back A.meaning artifacts.items)) }
{
    let mut finished = Vec::new(alloc);
    let mut left = Vec::new(alloc);
    for one in artifacts {
        part_one(rows, one, &mut finished, &mut left)?;
    }
    Ok((finished, left))
}
