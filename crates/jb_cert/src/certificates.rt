//! Reasons why no valid plan has fewer rounds.
ghost use Rattle.std.specs.Prelude.{◌≡◌, ◌↔◌, IsTrue};
ghost use Rattle.jb_cert.specs.Load.{IsWithinLimits};
ghost use Rattle.jb_cert.specs.Lawful.{IsLeastNumber, NoneIsShorter};
ghost use Rattle.jb_cert.specs.Certificates.{Holds, is_least_plan};

use crate::load::{least_rounds, total_of};
use std::fmt;

/// A reason why no valid plan has fewer rounds. It is one of the two bounds of McNaughton's formula.
#[derive(Clone, Copy, Debug, PartialEq, Eq)]
pub enum Certificate {
    /// There is no chunk, and no round.
    Nothing,
    /// The partition of this number, counted from 0, has as many chunks as there are rounds.
    Longest(u32),
    /// One round fewer has fewer places, one for each thread in each round, than there are chunks.
    FullLoad,
}

/// `Nothing`, `Longest(p)` with the number in decimal digits, or `FullLoad`.
impl fmt::Display for Certificate {
    ghost use Rattle.std.specs.Prelude.{Some};
    ghost use Rattle.jb_cert.specs.Texts.{certificate_text};

    ghost output = { λ certificate. Some (certificate_text certificate) };

    fn fmt<W: fmt::Write>(&self, f: &mut fmt::Formatter<W>) -> fmt::Result {
        match self {
            Certificate::Nothing => f.write_str("Nothing"),
            Certificate::Longest(partition) => write!(f, "Longest({partition})"),
            Certificate::FullLoad => f.write_str("FullLoad"),
        }
    }
}

/// Whether the certificate holds for that many rounds. True means that no valid plan has fewer; false leaves open whether one has.
pub fn check_certificate(
    counts: &[u64],
    threads: u32,
    rounds: u64,
    certificate: Certificate,
) -> bool
    requires { IsWithinLimits counts.now threads }
    ensures holds { IsTrue result ↔ Holds counts.now threads rounds certificate }
    ensures none_shorter { IsTrue result → NoneIsShorter counts.now threads rounds }
{
    match certificate {
        Certificate::Nothing => rounds == 0 && total_of(counts) == 0,
        Certificate::Longest(partition) => counts.get(partition as usize) == Some(&rounds),
        Certificate::FullLoad => {
            rounds >= 1
                && u128::from(rounds - 1) * u128::from(threads) < u128::from(total_of(counts))
        }
    }
}

/// Whether that is the fewest rounds of any valid plan, and the certificate holds for it.
#[tactic(auto, using(crate::proofs::Meant::least_plan_is))]
pub fn is_least_plan(counts: &[u64], threads: u32, rounds: u64, certificate: Certificate) -> bool
    requires { IsWithinLimits counts.now threads }
    ensures value { result ≡ is_least_plan counts.now threads rounds certificate }
    ensures least { IsTrue result ↔ (IsLeastNumber counts.now threads rounds × Holds counts.now threads rounds certificate) }
{
    rounds == least_rounds(counts, threads)
        && check_certificate(counts, threads, rounds, certificate)
}
