//! Reads and writes of `perform_recorded` that fail, each in turn, that are short, or that are interrupted.
//!
//! The streams give and take one byte at each call, and where calls are interrupted two and seven as well. In the last turn of each
//! loop no call fails, so that such short reads and writes are shown to change nothing. A flush is a call, too: it follows each text
//! that is written.
//!
//! - Reads: `run`, `restart`, `plan` and `check`, on a document that is answered. Status 4, no further read, nothing on standard
//!   output, and `stream failed` on standard error.
//! - Writes and the flush on standard output: the same subcommands and documents, and `--version`. Status 4, no further call there, the
//!   front of the answer, `stream failed`, and as many reads as in a run where no call fails.
//! - Writes and the flush on standard error: a document that each of the four subcommands refuses, a read that failed, a wrong subcommand.
//!   Status 4, no further call there, the front of the line, nothing on standard output, and as many reads as where no call fails.
//! - Interrupted calls: every other call of all three streams if there is an answer, else every other write on standard error.
//!   Status and texts are those of a run where none is interrupted.
//!
//! The help isn't among the answers.

use super::streams::{FailingReader, FailingWriter, Interrupted, arguments};
use jb_process::perform_recorded;
use jb_streams::Recorded;
use std::alloc::{AllocError, Global};
use std::sync::Wait;
use std::thread::Threads;

/// A word, its document, what it prints and its status. The saved rows of `restart` are of version 1, which is read and not written.
type Row = (&'static str, &'static str, &'static str, u8);

const ROWS: [Row; 4] = [
    (
        "run",
        r#"{"data":[{"records":["a","b","c"],"prefix":"x"}],"job":{"id":"j","step":[{"id":"s","chunk":{"item-count":2},"partition":{"plan":{"ranges":[[0,2],[2,3]],"threads":1}}}]}}"#,
        "{\"job\":\"j\",\"status\":\"COMPLETED\",\"steps\":[{\"heard\":[[\"0:2:2\",\"0:2:2:end\",\"COMPLETED\"],[\"1:3:1\",\"1:3:1:end\",\"COMPLETED\"]],\"outputs\":[[\"xa\",\"xb\"],[\"xc\"]],\"plans\":[[\"FullLoad\",2,2]],\"reducer\":[\"begin\",\"before\",\"after COMMIT\"],\"saved\":{\"rows\":[[0,2,2,0,0,2,2,2,1,0,0,0,0,0,0,\"done\"],[2,3,3,2,0,1,1,1,1,0,0,0,0,0,0,\"done\"]],\"step\":\"s\",\"version\":2},\"status\":\"COMPLETED\",\"step\":\"s\"}]}\n",
        0,
    ),
    (
        "restart",
        r#"{"data":[{"records":["a","b","c"],"prefix":"x"}],"job":{"id":"j","step":[{"id":"s","chunk":{"item-count":2}}]},"resume":{"outputs":[["xa","xb"]],"saved":{"rows":[[0,3,2,0,0,2,2,2,1,0,0,0,0,0,"waiting"]],"step":"s","version":1}}}"#,
        "{\"job\":\"j\",\"status\":\"COMPLETED\",\"steps\":[{\"heard\":[[\"0:3:3\",\"0:3:3:end\",\"COMPLETED\"]],\"outputs\":[[\"xa\",\"xb\",\"xc\"]],\"plans\":[[\"Longest(0)\",1,1]],\"reducer\":[\"begin\",\"before\",\"after COMMIT\"],\"saved\":{\"rows\":[[0,3,3,0,0,3,3,3,2,0,0,0,0,0,0,\"done\"]],\"step\":\"s\",\"version\":2},\"status\":\"COMPLETED\",\"step\":\"s\"}]}\n",
        0,
    ),
    (
        "plan",
        r#"{"counts":[3,3,3],"threads":2}"#,
        "rounds 5 FullLoad\n0: 0.0 1.0\n1: 0.1 2.0\n2: 0.2 2.1\n3: 1.1 2.2\n4: 1.2 -\n",
        0,
    ),
    (
        "check",
        r#"{"counts":[2,1],"threads":2,"rounds":[[[0,0,0],[1,1,0]],[[0,0,1]]],"certificate":"Nothing"}"#,
        "plan lawful\ncertificate no\n",
        1,
    ),
];

/// A subcommand, its document, the read that fails (0: none), the number of reads, the text on standard error, and the status.
type Fault = (&'static str, &'static str, usize, usize, &'static str, u8);

const FAULTS: [Fault; 6] = [
    ("run", "[]", 0, 3, "refused: WrongShape(unknown)\n", 3),
    (
        "restart",
        r#"{"data":[{"records":["a"],"prefix":"x"}],"job":{"id":"j","step":[{"id":"s","chunk":{"item-count":2}}]},"resume":{"outputs":[[]],"saved":{"version":3}}}"#,
        0,
        152,
        "refused: Saved(Version)\n",
        3,
    ),
    (
        "plan",
        r#"{"threads":65}"#,
        0,
        15,
        "refused: WrongShape(counts)\n",
        3,
    ),
    (
        "check",
        r#"{"counts":[10000001],"threads":0,"rounds":7,"certificate":""}"#,
        0,
        62,
        "refused: OutOfRange(counts)\n",
        3,
    ),
    ("plan", "{}", 2, 2, "stream failed\n", 4),
    (
        "resume",
        "{}",
        0,
        0,
        "wrong word: `resume`\nbatchrun --help says which words there are\n",
        5,
    ),
];

/// The read, the call on standard output and the call on standard error that fail (0: none).
#[derive(Clone, Copy)]
struct Fails {
    read: usize,
    write: usize,
    fault: usize,
}

const NOTHING: Fails = Fails {
    read: 0,
    write: 0,
    fault: 0,
};

/// The front of a text that is written if the call of this number fails (0: none), and how many calls are made. The calls write it byte
/// by byte and then flush the stream. An empty text takes none.
fn front(text: &str, fails_at: usize) -> (&[u8], usize) {
    let bytes = text.as_bytes();
    if bytes.is_empty() {
        return (bytes, 0);
    }
    if fails_at == 0 || fails_at > bytes.len() + 1 {
        (bytes, bytes.len() + 1)
    } else {
        (&bytes[..fails_at - 1], fails_at)
    }
}

/// Whether a run of the subcommand on the document, with such failing calls, makes so many reads and ends with this status. It must
/// also leave the fronts of these texts, and make no call after one that fails.
fn comes_to<R: Threads + Wait + Sync>(
    rt: &R,
    alloc: Global,
    (word, document): (&str, &str),
    fails: Fails,
    reads: usize,
    (output, line, status): (&str, &str, u8),
) -> bool {
    let mut reader = Recorded::new(FailingReader::new(document.as_bytes(), 1, fails.read));
    let mut writer = FailingWriter::new(alloc, 1, fails.write);
    let mut faults = FailingWriter::new(alloc, 1, fails.fault);
    let args = arguments(alloc, word);
    let code = perform_recorded(rt, alloc, args, &mut reader, &mut writer, &mut faults);
    code == status
        && reader.get_ref().calls() == reads
        && (writer.bytes(), writer.calls()) == front(output, fails.write)
        && (faults.bytes(), faults.calls()) == front(line, fails.fault)
}

// Each read fails in turn: nothing more is read, and nothing is written but that a stream failed.
#[test]
fn failing_reads(rt: HostRuntime) {
    for (word, document, output, status) in ROWS {
        let reads = document.len() + 1;
        for read in 1..reads + 2 {
            let fails = Fails { read, ..NOTHING };
            let wanted = if read <= reads {
                ("", "stream failed\n", 4)
            } else {
                (output, "", status)
            };
            let asked = (word, document);
            let is_so = comes_to(&rt, rt.alloc(), asked, fails, read.min(reads), wanted);
            assert!(rt; is_so, "{word} {read}");
        }
    }
}

// Each write on standard output fails in turn, and the flush: nothing more is read, and nothing more is written but that a stream
// failed.
#[test]
fn failing_writes(rt: HostRuntime) {
    for (word, document, output, status) in ROWS {
        let reads = document.len() + 1;
        let calls = output.len() + 1;
        for write in 1..calls + 2 {
            let fails = Fails { write, ..NOTHING };
            let wanted = if write <= calls {
                (output, "stream failed\n", 4)
            } else {
                (output, "", status)
            };
            let is_so = comes_to(&rt, rt.alloc(), (word, document), fails, reads, wanted);
            assert!(rt; is_so, "{word} {write}");
        }
    }
}

// Each write of the version fails in turn, and the flush, and nothing is read.
#[test]
fn failing_writes_of_the_version(rt: HostRuntime) {
    let output = "batchrun 0.1.0\n";
    let calls = output.len() + 1;
    for write in 1..calls + 2 {
        let fails = Fails {
            read: 1,
            write,
            fault: 0,
        };
        let wanted = if write <= calls {
            (output, "stream failed\n", 4)
        } else {
            (output, "", 0)
        };
        let is_so = comes_to(&rt, rt.alloc(), ("--version", ""), fails, 0, wanted);
        assert!(rt; is_so, "{write}");
    }
}

// Each write on standard error fails in turn, and the flush: nothing more is read, and nothing more is written on either stream.
#[test]
fn failing_fault_writes(rt: HostRuntime) {
    for (word, document, read, reads, line, status) in FAULTS {
        let calls = line.len() + 1;
        for fault in 1..calls + 2 {
            let fails = Fails {
                read,
                write: 1,
                fault,
            };
            let status = if fault <= calls { 4 } else { status };
            let wanted = ("", line, status);
            let is_so = comes_to(&rt, rt.alloc(), (word, document), fails, reads, wanted);
            assert!(rt; is_so, "{word} {fault}");
        }
    }
}

/// The bytes that a call gives or takes at most, where calls are interrupted.
const SIZES: [usize; 3] = [1, 2, 7];

/// Whether the run's streams, of which every other call is interrupted and the others give and take so many bytes at most, come to
/// the row's status and texts.
fn is_whole<R: Threads + Wait + Sync>(rt: &R, alloc: Global, row: &Row, most: usize) -> bool {
    let (word, document, output, status) = *row;
    let stream = Interrupted::new(FailingReader::new(document.as_bytes(), most, 0));
    let mut reader = Recorded::new(stream);
    let mut written = Interrupted::new(FailingWriter::new(alloc, most, 0));
    let mut faults = Interrupted::new(FailingWriter::new(alloc, most, 0));
    let args = arguments(alloc, word);
    let code = perform_recorded(rt, alloc, args, &mut reader, &mut written, &mut faults);
    code == status
        && written.stream().bytes() == output.as_bytes()
        && faults.stream().bytes().is_empty()
}

// Every other read and write is interrupted: each is made again, and nothing is lost or written twice.
#[test]
fn interrupted_calls(rt: HostRuntime) {
    for row in &ROWS {
        for most in SIZES {
            assert!(rt; is_whole(&rt, rt.alloc(), row, most), "{} {most}", row.0);
        }
    }
}

/// Whether the fault is reported with its status on a stream of which every other call is interrupted and the others take so many bytes
/// at most.
fn is_told<R: Threads + Wait + Sync>(rt: &R, alloc: Global, fault: &Fault, most: usize) -> bool {
    let (word, document, read_that_fails, _, line, status) = *fault;
    let stream = FailingReader::new(document.as_bytes(), 1, read_that_fails);
    let mut reader = Recorded::new(stream);
    let mut written = Vec::new(alloc);
    let mut faults = Interrupted::new(FailingWriter::new(alloc, most, 0));
    let args = arguments(alloc, word);
    let code = perform_recorded(rt, alloc, args, &mut reader, &mut written, &mut faults);
    code == status && written.is_empty() && faults.stream().bytes() == line.as_bytes()
}

// Every other write on standard error is interrupted, and the others are short: the line is whole and is there once.
#[test]
fn interrupted_faults(rt: HostRuntime) {
    for fault in &FAULTS {
        for most in SIZES {
            assert!(rt; is_told(&rt, rt.alloc(), fault, most), "{} {most}", fault.0);
        }
    }
}

/// The document after so many blanks.
fn behind_blanks(alloc: Global, document: &str, blanks: usize) -> Result<Vec<u8>, AllocError> {
    let mut bytes = Vec::new(alloc);
    bytes.resize(blanks, b' ')?;
    bytes.extend_from_slice(document.as_bytes())?;
    Ok(bytes)
}

// A document of more than 2,000,000 bytes, one at each read: none is lost, and no number of reads is too many.
#[test]
fn long_document_in_small_reads(rt: HostRuntime) {
    let alloc = rt.alloc();
    let (word, document, output, _) = ROWS[2];
    let bytes = behind_blanks(alloc, document, 2_000_000).expect(&rt, "memory");
    let mut reader = Recorded::new(FailingReader::new(&bytes, 1, 0));
    let mut written = Vec::new(alloc);
    let mut faults = Vec::new(alloc);
    let args = arguments(alloc, word);
    let status = perform_recorded(&rt, alloc, args, &mut reader, &mut written, &mut faults);
    assert!(rt; status == 0 && written.as_slice() == output.as_bytes());
}
