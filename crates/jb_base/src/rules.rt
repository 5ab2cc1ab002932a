//! What is skipped and what is retried.

use std::marker::Model;

/// Which fault classes of a chunk step are skipped and which are retried, and how often.
///
/// A set of classes has one bit for each class, `ClassId::bit`. Both limits hold for each partition
/// by itself (own choice). Contracts see the record of the five values.
#[derive(Clone, Copy, Debug, PartialEq, Eq)]
pub struct Rules {
    /// The classes of Jakarta's `skippable-exception-classes`.
    pub skippable: u64,
    /// The classes of Jakarta's `retryable-exception-classes`.
    pub retryable: u64,
    /// The classes of Jakarta's `no-rollback-exception-classes`. A retry for them repeats the failed call, and rolls nothing back.
    pub no_rollback: u64,
    /// How many faults are skipped, at most 10,000,000. None means no limit.
    pub skip_limit: Option<u64>,
    /// How many retries there may be, at most 100,000.
    pub retry_limit: u64,
}

impl Model for Rules {
    ghost use Rattle.std.specs.Prelude.{◌≤◌};
    ghost use Rattle.std.specs.Option.{ForSome};
    ghost use Rattle.jb_base.specs.Limits.{max_skip_limit, max_retry_limit};
    ghost use Rattle.jb_base.specs.Rules.{RulesRecord};

    ghost Value = { RulesRecord };

    ghost view = { λ r. record { skippable = r.skippable; retryable = r.retryable; no_rollback = r.no_rollback; skip_limit = r.skip_limit; retry_limit = r.retry_limit } };

    ghost invariant = { λ r. ForSome r.skip_limit (λ limit. limit ≤ max_skip_limit) × (r.retry_limit ≤ max_retry_limit) };

    ghost inverse = { λ r. record { skippable = r.skippable; retryable = r.retryable; no_rollback = r.no_rollback; skip_limit = r.skip_limit; retry_limit = r.retry_limit } };
}
