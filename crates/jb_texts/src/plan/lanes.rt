//! What the lanes have in a round, written into a line from its end: the last lane first, and each other lane in front of the next one.

ghost use Rattle.std.specs.Prelude.{◌≡◌, ◌+◌, ◌*◌, ◌≤◌, ◌<◌, ◌++◌, ◌∷◌, decimal, drop, length};
ghost use Rattle.jb_base.specs.Limits.{max_threads};
ghost use Rattle.jb_cert.specs.WrapAround.{slots_of_round};
ghost use Rattle.jb_texts.specs.PlanText.{lane_text, lanes_text};
ghost use Rattle.jb_texts.specs.inside.Idle.{idle_text};

use itoa::write_digits;
use jb_base::MAX_THREADS;
use jb_cert::lanes_are_found;
use jb_rounds::RoundCursor;

/// The largest number of lanes.
pub const MAX_LANES: usize = MAX_THREADS as usize;

/// The most bytes that a lane has: a space, a partition of ten digits, a dot and a chunk of twenty.
pub const LANE_ROOM: usize = 32;

/// What as many idle lanes have.
const IDLE: &[u8; 128] =
    b" - - - - - - - - - - - - - - - - - - - - - - - - - - - - - - - - - - - - - - - - - - - - - - - - - - - - - - - - - - - - - - - -";

/// Writes a space, the partition, a dot and the chunk, which end at `end`, and gives where they begin.
fn write_slot(line: &mut [u8], end: usize, partition: u32, chunk: u64) -> usize
    requires { (32 ≤ end) × (end ≤ length line.old) }
    ensures begin { (result ≤ end) × (end ≤ result + 32) }
    ensures written { drop result line.new ≡ (32 ∷ (decimal partition ++ 46 ∷ decimal chunk)) ++ drop end line.old }
{
    let dot = write_digits(chunk, line, end) - 1;
    line[dot] = b'.';
    let begin = write_digits(u64::from(partition), line, dot) - 1;
    line[begin] = b' ';
    begin
}

/// Writes what a lane has in a round, which ends at `end`, and gives where it begins and the lane's partition, for its next
/// round. `near` is where that is looked for first.
#[tactic(auto, unfolding(crate::specs::PlanText::lane_text))]
fn write_lane(
    line: &mut [u8],
    end: usize,
    cursor: &RoundCursor,
    round: u64,
    lane: u32,
    near: u32,
) -> (usize, u32)
    requires lane { lane < cursor.now.threads }
    requires room { (32 ≤ end) × (end ≤ length line.old) }
    ensures begin { (result.0 ≤ end) × (end ≤ result.0 + 32) }
    ensures written { drop result.0 line.new ≡ lane_text (slots_of_round cursor.now.counts cursor.now.threads round) lane ++ drop end line.old }
{
    lanes_are_found();
    match cursor.slot_near(round, lane, near) {
        Some((partition, chunk)) => (write_slot(line, end, partition, chunk), partition),
        None => (write_idle(line, end, 1), near),
    }
}

/// Writes what the first lanes have in a round, which ends at `end`, and gives where it begins.
pub fn write_lanes(
    line: &mut [u8],
    end: usize,
    cursor: &RoundCursor,
    round: u64,
    lanes: u32,
    near: &mut [u32],
) -> usize
    requires lanes { lanes ≤ cursor.now.threads }
    requires near { cursor.now.threads ≤ length near.old }
    requires room { (32 * lanes ≤ end) × (end ≤ length line.old) }
    ensures begin { (result ≤ end) × (end ≤ result + 32 * lanes) }
    ensures written { drop result line.new ≡ lanes_text lanes (slots_of_round cursor.now.counts cursor.now.threads round) ++ drop end line.old }
    ensures near { length near.new ≡ length near.old }
{
    let mut begin = end;
    for behind in 0..lanes {
        let lane = lanes - 1 - behind;
        let (at, partition) = write_lane(line, begin, cursor, round, lane, near[lane as usize]);
        begin = at;
        near[lane as usize] = partition;
    }
    begin
}

/// Writes what so many idle lanes have, which ends at `end`, and gives where it begins.
pub fn write_idle(line: &mut [u8], end: usize, lanes: u32) -> usize
    requires lanes { lanes ≤ max_threads }
    requires room { (2 * lanes ≤ end) × (end ≤ length line.old) }
    ensures begin { result + 2 * lanes ≡ end }
    ensures written { drop result line.new ≡ idle_text lanes ++ drop end line.old }
{
    let bytes = 2 * lanes as usize;
    let begin = end - bytes;
    line[begin..end].copy_from_slice(&IDLE[..bytes]);
    begin
}
