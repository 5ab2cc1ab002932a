//! The test of a whole plan.
ghost use Rattle.std.specs.Prelude.{◌≡◌, ℕ, ◌+◌, ◌<◌, ◌⊎◌, [], length, slice_index, IfErr, IfNone, OnOk};
ghost use Rattle.std.specs.List.{list_any};
ghost use Rattle.jb_cert.specs.Load.{IsWithinLimits};
ghost use Rattle.jb_cert.specs.Plans.{StandsForLawful, plan_rounds};
ghost use Rattle.jb_cert.specs.Faults.{collides, first_plan_fault, missing_fault, slots_of};
ghost use Rattle.jb_cert.specs.inside.Walk.{fault_here, fault_in_round, found_fault};

use crate::plans::{Plan, PlanFault, Slot};
use std::alloc::Global;

/// The first fault of the plan, if it has one.
///
/// The slots are judged one by one, in the order of the rounds and of each round's list. The tests of a slot are, in
/// turn, `LaneRange`, `Stranger`, `TwiceInRound` and `OutOfOrder`. If no slot has a fault, a chunk that is in no round is
/// `Missing`.
pub fn check_plan(alloc: Global, counts: &[u64], threads: u32, plan: &Plan) -> Result<(), PlanFault>
    requires { IsWithinLimits counts.now threads }
    ensures lawful { OnOk result (StandsForLawful counts.now threads (plan_rounds plan.now)) }
    ensures unlawful { IfErr result (λ fault. (fault ≡ PlanFault.Memory)
        ⊎ (StandsForLawful counts.now threads (plan_rounds plan.now) → ⊥)) }
    ensures first { IfErr result (λ fault. (fault ≡ PlanFault.Memory)
        ⊎ (first_plan_fault counts.now threads (plan_rounds plan.now) ≡ Some fault)) }
{
    let Ok(mut ran) = vec![in alloc; 0u64; counts.len()] else {
        return Err(PlanFault::Memory);
    };
    match plan_fault(counts, threads, plan, &mut ran) {
        Some(fault) => Err(fault),
        None => Ok(()),
    }
}

// Judges all rounds; `ran` counts the chunks of each partition that ran, at first none.
fn plan_fault(counts: &[u64], threads: u32, plan: &Plan, ran: &mut [u64]) -> Option<PlanFault>
    requires long { length ran.old ≡ length counts.now }
    requires none { (p : ℕ) → p < length counts.now → slice_index ran.old p ≡ 0 }
    ensures { result ≡ found_fault counts.now threads (plan_rounds plan.now) }
{
    for round in &plan.rounds {
        if let Some(fault) = round_fault(counts, threads, round, ran) {
            return Some(fault);
        }
    }
    end_fault(counts, ran)
}

// Judges one round; `ran` counts the chunks of each partition in the rounds so far.
fn round_fault(counts: &[u64], threads: u32, round: &[Slot], ran: &mut [u64]) -> Option<PlanFault>
    requires { length ran.old ≡ length counts.now }
    ensures fault { result ≡ fault_in_round counts.now threads (λ p. slice_index ran.old p) [] round.now }
    ensures ran { IfNone result ((p : ℕ) → p < length counts.now → slice_index ran.new p ≡ slice_index ran.old p + slots_of p round.now) }
{
    for (i, slot) in round.iter().enumerate() {
        if let Some(fault) = slot_fault(counts, threads, ran, &round[..i], *slot) {
            return Some(fault);
        }
        ran[slot.partition as usize] += 1;
    }
    None
}

// Judges a slot by the chunks that ran before it and the slots before it in its round.
fn slot_fault(
    counts: &[u64],
    threads: u32,
    ran: &[u64],
    here: &[Slot],
    slot: Slot,
) -> Option<PlanFault>
    requires { length ran.now ≡ length counts.now }
    ensures fault { result ≡ fault_here counts.now threads (λ p. slice_index ran.now p) here.now slot }
    ensures next { IfNone result ((slot.partition < length counts.now) × (slice_index ran.now slot.partition < slice_index counts.now slot.partition)) }
{
    if slot.lane >= threads {
        return Some(PlanFault::LaneRange);
    }
    let partition = slot.partition as usize;
    if partition >= counts.len() || slot.chunk >= counts[partition] {
        return Some(PlanFault::Stranger);
    }
    if any_collides(here, slot) {
        return Some(PlanFault::TwiceInRound);
    }
    if slot.chunk != ran[partition] {
        return Some(PlanFault::OutOfOrder);
    }
    None
}

fn any_collides(here: &[Slot], slot: Slot) -> bool
    ensures { result ≡ list_any (collides slot) here.now }
{
    here.iter().any(|other| other.lane == slot.lane || other.partition == slot.partition)
}

fn end_fault(counts: &[u64], ran: &[u64]) -> Option<PlanFault>
    requires { length ran.now ≡ length counts.now }
    ensures { result ≡ missing_fault counts.now (λ p. slice_index ran.now p) }
{
    for (i, count) in counts.iter().enumerate() {
        if ran[i] != *count {
            return Some(PlanFault::Missing);
        }
    }
    None
}
