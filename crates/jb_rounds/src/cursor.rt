//! Rounds on demand: what any lane runs in any round, with no plan in memory.
ghost use Rattle.std.specs.Prelude.{◌≡◌, ◌≢◌, ◌<◌, ◌≤◌, ◌∷◌, [], ℕ, length, ◌==◌, slice_index, IfOk, IfSome, IsSome, position};
ghost use Rattle.std.specs.Option.{IfNone};
ghost use Rattle.jb_cert.specs.Load.{IsWithinLimits, Load, mcnaughton};
ghost use Rattle.jb_cert.specs.Lawful.{IsLeastNumber};
ghost use Rattle.jb_cert.specs.Certificates.{Holds, bound_certificate};
ghost use Rattle.jb_cert.specs.Plans.{StandsForLeast};
ghost use Rattle.jb_cert.specs.WrapAround.{slot_of, slots_of_round, wrapped_rounds};
ghost use Rattle.jb_rounds.specs.inside.Starts.{counts_between};
ghost use Rattle.jb_rounds.specs.inside.Index.{IsIndexOf};

use crate::places::{chunk_total, pair_in, starts_of};
use jb_cert::{Certificate, Slot, bound_is_least, least_rounds, wrap_around_is_least};
use std::alloc::{AllocError, Global};
use std::marker::Model;

/// The wrap-around of some counts of chunks over some threads, slot by slot. It stores a number for each partition, and
/// no round. Contracts see the counts and the number of threads.
#[derive(Debug, Drop)]
pub struct RoundCursor {
    // Where each partition begins in the row of all chunks, and finally where the last one ends.
    starts: Vec<u64>,
    threads: u32,
    rounds: u64,
    certificate: Certificate,
}

impl Model for RoundCursor {
    ghost Value = { Load };

    ghost view = { λ c. record { counts = counts_between c.starts.items; threads = c.threads } };

    ghost invariant = { λ c. IsIndexOf c.starts.items c.threads c.rounds c.certificate };
}

impl RoundCursor {
    /// The cursor for these counts of chunks, one for each partition, and so many threads. The only error is out of
    /// memory. Of the other calls, only `slots` takes memory.
    pub fn new(alloc: Global, counts: &[u64], threads: u32) -> Result<Self, AllocError>
        requires { IsWithinLimits counts.now threads }
        ensures counts { IfOk result (λ cursor. cursor.counts ≡ counts.now) }
        ensures threads { IfOk result (λ cursor. cursor.threads ≡ threads) }

        // The slots, round by round, are a valid plan of the fewest rounds.
        ensures least { IfOk result (λ cursor. StandsForLeast counts.now threads (wrapped_rounds cursor.counts cursor.threads)) }
    {
        wrap_around_is_least();
        let rounds = least_rounds(counts, threads);
        let starts = starts_of(alloc, counts)?;
        Ok(RoundCursor {
            starts,
            threads,
            rounds,
            certificate: certificate_for(counts, threads, rounds),
        })
    }

    /// The number of threads, 1 to 64.
    pub fn threads(&self) -> u32
        ensures value { result ≡ self.now.threads }
        ensures limits { IsWithinLimits self.now.counts self.now.threads }
    {
        self.threads
    }

    /// The number of rounds, 0 to 10,000,000: `least_rounds` of the counts and the threads.
    pub fn rounds(&self) -> u64
        ensures bound { result ≡ mcnaughton self.now.counts self.now.threads }
        ensures least { IsLeastNumber self.now.counts self.now.threads result }

        // The slots, round by round, are a valid plan of so many rounds, the fewest.
        ensures length { length (wrapped_rounds self.now.counts self.now.threads) ≡ result }
        ensures plan { StandsForLeast self.now.counts self.now.threads (wrapped_rounds self.now.counts self.now.threads) }
    {
        bound_is_least();
        wrap_around_is_least();
        self.rounds
    }

    /// Why no plan has fewer rounds.
    pub fn certificate(&self) -> Certificate
        ensures value { result ≡ bound_certificate self.now.counts self.now.threads }
        ensures holds { Holds self.now.counts self.now.threads (mcnaughton self.now.counts self.now.threads) result }
    {
        bound_is_least();
        self.certificate
    }

    /// How many lanes run a chunk in that round; they are the first ones. 0 from `rounds()` on.
    pub fn busy_lanes(&self, round: u64) -> u32
        ensures few { result ≤ self.now.threads }
        ensures busy { (lane : ℕ) → lane < result → IsSome (slot_of self.now.counts self.now.threads round lane) }
        ensures idle { (lane : ℕ) → result ≤ lane → slot_of self.now.counts self.now.threads round lane ≡ None }
    {
        if round >= self.rounds {
            return 0;
        }
        (chunk_total(&self.starts) - round).div_ceil(self.rounds) as u32
    }

    /// The partition that the lane runs in that round, and the number of its chunk. None if the lane has no chunk there,
    /// which is so from `rounds()` on and from the number of threads on. It is found by a binary search.
    pub fn slot(&self, round: u64, lane: u32) -> Option<(u32, u64)>
        ensures value { result ≡ slot_of self.now.counts self.now.threads round lane }
        ensures partition { IfSome result (λ slot. slot.0 < length self.now.counts) }
        ensures chunk { IfSome result (λ slot. slot.1 < slice_index self.now.counts slot.0) }
        ensures past_rounds { mcnaughton self.now.counts self.now.threads ≤ round → result ≡ None }
        ensures past_threads { self.now.threads ≤ lane → result ≡ None }
    {
        self.slot_near(round, lane, 0)
    }

    /// The same, but the partition `near` and the next one are tried before the search. Walk the rounds in order, and
    /// give for each lane the partition that it had in the round before. Then it searches only where empty partitions lie
    /// between. Any number will do.
    pub fn slot_near(&self, round: u64, lane: u32, near: u32) -> Option<(u32, u64)>
        ensures value { result ≡ slot_of self.now.counts self.now.threads round lane }
        ensures partition { IfSome result (λ slot. slot.0 < length self.now.counts) }
        ensures chunk { IfSome result (λ slot. slot.1 < slice_index self.now.counts slot.0) }
        ensures past_rounds { mcnaughton self.now.counts self.now.threads ≤ round → result ≡ None }
        ensures past_threads { self.now.threads ≤ lane → result ≡ None }
    {
        if round >= self.rounds || lane >= self.threads {
            return None;
        }
        wrap_around_is_least();
        pair_in(
            &self.starts,
            self.rounds,
            u64::from(lane) * self.rounds + round,
            near,
        )
    }

    /// The only slot of a round; None if the round has several, and past the last one. The partition `near` and the next
    /// one are tried before the search, as by `slot_near`. On one thread each round has one slot.
    pub fn only_slot(&self, round: u64, near: u32) -> Option<Slot>
        ensures only { IfSome result (λ slot. slots_of_round self.now.counts self.now.threads round ≡ slot ∷ []) }
        ensures others { IfNone result (length (slots_of_round self.now.counts self.now.threads round) ≢ 1) }
    {
        if self.busy_lanes(round) != 1 {
            return None;
        }
        let (partition, chunk) = self.slot_near(round, 0, near)?;
        Some(Slot {
            lane: 0,
            partition,
            chunk,
        })
    }

    /// The slots of a round, by rising lane; none past the last round. The only error is out of memory.
    pub fn slots(&self, alloc: Global, round: u64) -> Result<Vec<Slot>, AllocError>
        ensures { IfOk result (λ slots. slots.items ≡ slots_of_round self.now.counts self.now.threads round) }
    {
        let threads = self.threads();
        let mut slots = Vec::with_capacity(alloc, self.busy_lanes(round) as usize)?;
        for lane in 0..threads {
            let Some((partition, chunk)) = self.slot(round, lane) else {
                break;
            };
            slots.push(Slot {
                lane,
                partition,
                chunk,
            })?;
        }
        Ok(slots)
    }
}

// Nothing if there is no chunk, else the first partition with as many chunks as there are rounds, else the full load.
fn certificate_for(counts: &[u64], threads: u32, rounds: u64) -> Certificate
    requires limits { IsWithinLimits counts.now threads }
    requires rounds { rounds ≡ mcnaughton counts.now threads }
    ensures { result ≡ bound_certificate counts.now threads }
{
    let total: u64 = counts.iter().sum();
    if total == 0 {
        return Certificate::Nothing;
    }
    match first_of_count(counts, rounds) {
        Some(partition) => Certificate::Longest(partition as u32),
        None => Certificate::FullLoad,
    }
}

// The first partition with so many chunks.
fn first_of_count(counts: &[u64], wanted: u64) -> Option<usize>
    ensures value { result ≡ position (λ n. n == wanted) counts.now }
    ensures within { IfSome result (λ p. p < length counts.now) }
{
    counts.iter().position(|count| *count == wanted)
}
