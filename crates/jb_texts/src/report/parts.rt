//! A part of a report: a text, and results that follow it.

ghost use Rattle.std.specs.Prelude.{◌≡◌};
ghost use Rattle.jb_texts.specs.inside.Parts.{longest, longest_of_parts};

use jb_base::PackedList;

/// A text of a report, and the results of a partition, which follow it. No text is made of these before they are written.
#[derive(Drop)]
pub struct Part {
    pub text: Vec<u8>,
    pub results: PackedList,
}

/// The bytes of the longest result.
fn longest_in(results: &PackedList) -> usize
    ensures { result ≡ longest results.now }
{
    let mut longest = 0;
    for place in 0..results.len() {
        longest = longest.max(results.at(place).len());
    }
    longest
}

/// The bytes of the longest result of all parts.
pub fn longest_result(parts: &[Part]) -> usize
    ensures { result ≡ longest_of_parts parts.now }
{
    let mut longest = 0;
    for part in parts {
        longest = longest.max(longest_in(&part.results));
    }
    longest
}
