//! A share with the number of its parts.

ghost use Rattle.std.specs.Prelude.{◌≡◌, ◌+◌, ◌<◌, ◌^◌, IfSome};
ghost use Rattle.std.specs.Option.{IfNone};

use std::mem;
use std::sync::ledger::{Ledger, Share};

/// A share of the book with the number of its parts. A worker of a round holds one part.
#[derive(Drop)]
pub(crate) struct Parts<L: Ledger> {
    number: u64,
    share: Share<L>,
    ghost same: { share.parts ≡ number },
}

impl<L: Ledger> Parts<L> {
    pub(crate) fn new(share: Share<L>, number: u64) -> Parts<L>
        requires { share.parts ≡ number }
        ensures { result.number ≡ number }
    {
        Parts { number, share }
    }

    /// So many of the parts, where there are as many.
    pub(crate) fn take(&mut self, number: u64) -> Option<Parts<L>>
        ensures parts { IfSome result (λ parts. (parts.number ≡ number) × (self.new.number + number ≡ self.old.number)) }
        ensures few { IfNone result (self.old.number < number) }
    {
        if number > self.number {
            return None;
        }
        if number == self.number {
            return Some(self.take_all());
        }
        let Parts { number: all, share } = self;
        let part = share.split_off(number, 0);
        *all -= number;
        Some(Parts {
            number,
            share: part,
        })
    }

    fn take_all(&mut self) -> Parts<L>
        ensures all { result.number ≡ self.old.number }
        ensures none { self.new.number ≡ 0 }
    {
        let none = self.share.empty();
        let rest = Parts {
            number: 0,
            share: none,
        };
        mem::replace(self, rest)
    }

    /// One part; it has no amount unless it is the last.
    pub(crate) fn take_one(&mut self) -> Share<L>
        requires { 0 < self.old.number }
        ensures part { result.parts ≡ 1 }
        ensures rest { self.new.number + 1 ≡ self.old.number }
    {
        if self.number == 1 {
            let Parts { share, .. } = self.take_all();
            return share;
        }
        let Parts { number, share } = self;
        let one = share.split_off(1, 0);
        *number -= 1;
        one
    }

    /// With one part more.
    pub(crate) fn put_back(&mut self, one: Share<L>)
        requires { one.parts ≡ 1 }
        ensures { self.old.number + 1 < 2 ^ 64 → self.new.number ≡ self.old.number + 1 }
    {
        let back = Parts::new(one, 1);
        self.merge(back);
    }

    /// With the other's parts, whose number fits since they were taken from these.
    pub(crate) fn merge(&mut self, other: Parts<L>)
        ensures { self.old.number + other.number < 2 ^ 64 → self.new.number ≡ self.old.number + other.number }
    {
        let Some(all) = self.number.checked_add(other.number) else {
            return;
        };
        let Parts { number, share } = self;
        share.merge(other.share);
        *number = all;
    }
}
