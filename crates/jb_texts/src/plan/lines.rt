//! The heading of a plan, and a line for each round.

ghost use Rattle.std.specs.Prelude.{◌≡◌, ◌≤◌, [], ◌++◌, drop, length, OnErr, OnOk};
ghost use Rattle.std.specs.Io.KnownBytes.{Appends};
ghost use Rattle.std.specs.List.{enumerate_from};
ghost use Rattle.jb_cert.specs.WrapAround.{slots_of_round, wrapped_rounds};
ghost use Rattle.jb_texts.specs.Front.{AppendsFront};
ghost use Rattle.jb_texts.specs.PlanText.{lines_of, round_line, text_of_load};

use super::lanes::{LANE_ROOM, MAX_LANES, write_idle, write_lanes};
use crate::block::pass_on;
use crate::whole::write_whole;
use itoa::write_digits;
use jb_cert::lanes_are_found;
use jb_rounds::RoundCursor;
use std::io;
use std::io::Write;

/// The memory of a line: for its lanes, a number of twenty digits, a colon and a line feed.
const LINE_ROOM: usize = LANE_ROOM * MAX_LANES + 22;

/// Writes the line of a round at the end of a line's memory, and gives where it begins.
#[tactic(auto, unfolding(crate::specs::PlanText::round_line))]
fn write_round(
    line: &mut [u8; LINE_ROOM],
    cursor: &RoundCursor,
    round: u64,
    near: &mut [u32],
) -> usize
    requires { cursor.now.threads ≤ length near.old }
    ensures line { drop result line.new ≡ round_line cursor.now.threads round (slots_of_round cursor.now.counts cursor.now.threads round) }
    ensures within { result ≤ 2070 }
    ensures near { length near.new ≡ length near.old }
{
    lanes_are_found();
    let busy = cursor.busy_lanes(round);
    line[LINE_ROOM - 1] = b'\n';
    let idle = write_idle(line, LINE_ROOM - 1, cursor.threads() - busy);
    let colon = write_lanes(line, idle, cursor, round, busy, near) - 1;
    line[colon] = b':';
    write_digits(round, line, colon)
}

/// Writes the block, and then a line for each round, in blocks.
fn write_lines<W: Write>(mut block: Vec<u8>, cursor: &RoundCursor, writer: &mut W) -> io::Result<()>
    ensures whole { OnOk result (Appends (W.contents writer.old) (W.contents writer.new)
        (block.items ++ lines_of cursor.now.threads (enumerate_from 0 (wrapped_rounds cursor.now.counts cursor.now.threads)))) }
    ensures front { OnErr result (AppendsFront (W.contents writer.old) (W.contents writer.new)
        (block.items ++ lines_of cursor.now.threads (enumerate_from 0 (wrapped_rounds cursor.now.counts cursor.now.threads)))) }
{
    let _lanes = cursor.threads();
    let mut near = [0; MAX_LANES];
    let mut line = [0; LINE_ROOM];
    for round in 0..cursor.rounds() {
        let begin = write_round(&mut line, cursor, round, &mut near);
        block.write_all(&line[begin..])?;
        pass_on(&mut block, writer)?;
    }
    write_whole(&block, writer)
}

/// Writes the wrap-around plan of the cursor's load by way of an empty block: the heading, and a line for each round. It
/// takes no memory where the block has `BLOCK_ROOM` bytes of it. Where the writer fails, it holds the front of the plan.
#[tactic(auto, unfolding(crate::specs::PlanText::plan_text, crate::specs::PlanText::heading))]
pub fn write_plan<W: Write>(
    mut block: Vec<u8>,
    cursor: &RoundCursor,
    writer: &mut W,
) -> io::Result<()>
    requires { block.items ≡ [] }
    ensures whole { OnOk result (Appends (W.contents writer.old) (W.contents writer.new) (text_of_load cursor.now)) }
    ensures front { OnErr result (AppendsFront (W.contents writer.old) (W.contents writer.new) (text_of_load cursor.now)) }
{
    let certificate = cursor.certificate();
    writeln!(block, "rounds {} {certificate}", cursor.rounds())?;
    write_lines(block, cursor, writer)
}
