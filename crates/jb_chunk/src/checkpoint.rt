//! Reader and writer, opened again at a checkpoint.

ghost use Rattle.std.specs.Prelude.{◌≡◌, ◌≤◌, length};
ghost use Rattle.jb_artifacts.specs.Reader.{reader_end};
ghost use Rattle.jb_chunk.specs.TaskState.{at_checkpoint};

use crate::partition_artifacts::PartitionArtifacts;
use jb_rules::Row;

/// Opens reader and writer at the row's checkpoint. What is written past it is cut off.
pub fn open_at_checkpoint<A: PartitionArtifacts>(artifacts: &mut A, row: &Row)
    requires from { (A.meaning artifacts.old).reader.first ≤ row.now.at }
    requires to { row.now.at ≤ reader_end (A.meaning artifacts.old).reader }
    requires count { row.now.written ≤ length (A.meaning artifacts.old).writer.written }
    ensures { A.meaning artifacts.new ≡ at_checkpoint row.now (A.meaning artifacts.old) }
{
    artifacts.open_reader_at(row.at);
    artifacts.open_writer_at(row.written);
}
