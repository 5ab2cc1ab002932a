//! A collector that reports the counts of a partition.

ghost use Rattle.std.specs.Prelude.{◌≡◌, ◌≤◌, ◌+◌, ◌++◌, ◌∷◌, [], if◌then◌else◌, codes, decimal, drop, length};
ghost use Rattle.jb_artifacts.specs.Collected.{count_text};

use crate::interfaces::Collector;
use crate::item::Item;
use crate::view::RowView;
use itoa::write_digits;
use std::alloc::{AllocError, Global};

/// The room for a text: three numbers of twenty digits, two colons and the end.
const ROOM: usize = 66;

/// A collector whose text is the partition, the checkpoint and WRITE, as `0:2:2`. On the partition's last call, `:end` follows.
#[derive(Drop)]
pub struct CountCollector {
    alloc: Global,
}

impl CountCollector {
    /// Takes no memory.
    pub fn new(alloc: Global) -> CountCollector
        ensures { ⟦<CountCollector as Collector>⟧.collected result ≡ count_text }
    {
        CountCollector { alloc }
    }
}

impl Collector for CountCollector {
    ghost collected = { λ _. count_text };

    fn collect(&self, view: &RowView) -> Result<Item, AllocError> {
        let mut text = [0; ROOM];
        let begin = write_counts(&mut text, view);
        Item::copy_of(self.alloc, &text[begin..])
    }
}

/// Writes the text at the end of its room, and returns where it begins.
fn write_counts(text: &mut [u8; ROOM], view: &RowView) -> usize
    ensures within { result ≤ 66 }
    ensures written { drop result text.new ≡ count_text view.now }
{
    let end = write_end(text, view.last);
    let write = write_colon(text, end, view.counts.write);
    let at = write_colon(text, write, view.at);
    write_number(text, at, u64::from(view.partition))
}

/// Writes the end of a partition's last text, and returns where it begins.
fn write_end(text: &mut [u8; ROOM], last: bool) -> usize
    ensures within { (62 ≤ result) × (result ≤ 66) }
    ensures written { drop result text.new ≡ (if last then codes ":end" else []) }
{
    if last {
        text[62..].copy_from_slice(b":end");
        return 62;
    }
    ROOM
}

/// Writes a colon and the number, which end at `end`, and returns where they begin.
fn write_colon(text: &mut [u8], end: usize, number: u64) -> usize
    requires { (21 ≤ end) × (end ≤ length text.old) }
    ensures begin { (result ≤ end) × (end ≤ result + 21) }
    ensures written { drop result text.new ≡ 58 ∷ (decimal number ++ drop end text.old) }
    ensures room { length text.new ≡ length text.old }
{
    let begin = write_number(text, end, number) - 1;
    text[begin] = b':';
    begin
}

/// Writes the number, which ends at `end`, and returns where it begins.
fn write_number(text: &mut [u8], end: usize, number: u64) -> usize
    requires { (20 ≤ end) × (end ≤ length text.old) }
    ensures begin { (result ≤ end) × (end ≤ result + 20) }
    ensures written { drop result text.new ≡ decimal number ++ drop end text.old }
    ensures room { length text.new ≡ length text.old }
{
    write_digits(number, text, end)
}
