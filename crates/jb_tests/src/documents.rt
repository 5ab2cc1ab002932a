//! Each document once on its happy path, and the worked documents by their definitions. Those that are refused are in `cases`.

ghost use Rattle.jb_documents.specs.CheckDocument.{Claims};
ghost use Rattle.jb_documents.specs.PlanDocument.{AsksFor};
ghost use Rattle.jb_documents.specs.Worked.{three_equal_document, two_rounds_claim, two_rounds_document};
ghost use Rattle.jb_texts.specs.Worked.{three_equal};

use jb_cert::Certificate;
use jb_documents::{
    ChunkLoad, Document, FaultKind, PlanClaim, RestartDocument, StepData, read_claim,
    read_document, read_load, read_restart,
};
use std::alloc::{AllocError, Global};

// This fact speaks of no code.
fn worked_documents()
    ensures plan { AsksFor three_equal three_equal_document }
    ensures check { Claims two_rounds_claim two_rounds_document }
{}

fn bytes_of(alloc: Global, text: &str) -> Result<Vec<u8>, AllocError> {
    Vec::from_slice(alloc, text.as_bytes())
}

/// A document of one step with two records.
const ONE_STEP: &str =
    r#"{"job":{"id":"j","exception-classes":["E"],"step":[{"id":"s","chunk":{}}]},
        "data":[{"records":["a","b"],"drop":"x","faults":{"read":[[0,"bad","E"],[1,"shaky",["E"]]]}}]}"#;

/// The same with its data twice: the last data count. It isn't plain, so the tree of the text decides.
const DATA_TWICE: &str =
    r#"{"job":{"id":"j","exception-classes":["E"],"step":[{"id":"s","chunk":{}}]},"data":[],
        "data":[{"records":["a","b"],"drop":"x","faults":{"read":[[0,"bad","E"],[1,"shaky",["E"]]]}}]}"#;

/// Whether the step has that second record, and that second fault in reading.
fn is_that_step(step: &StepData) -> bool {
    match (
        step.records.as_list().get(1),
        step.faults.read.as_slice().last(),
    ) {
        (Some(record), Some(fault)) => {
            let is_shaky = matches!(&fault.kind, FaultKind::Shaky(_));
            record == b"b".as_slice() && fault.number == 1 && is_shaky
        }
        _ => false,
    }
}

/// Whether it is that document.
fn has_one_step(document: &Document) -> bool {
    for step in document.step_data.as_slice() {
        if !is_that_step(step) {
            return false;
        }
    }
    document.step_data.as_slice().len() == 1
}

const LOAD: &str = r#"{"counts":[3,3,3],"threads":2}"#;

fn is_that_load(load: &ChunkLoad) -> bool {
    load.counts() == [3u64, 3, 3].as_slice() && load.threads() == 2
}

const CLAIM: &str =
    r#"{"counts":[2,1],"threads":2,"rounds":[[[0,0,0],[1,1,0]],[[0,0,1]]],"certificate":1}"#;

fn is_that_claim(claim: &PlanClaim) -> bool {
    claim.plan.rounds.len() == 2 && claim.certificate == Certificate::Longest(1)
}

/// The document of a restart of seven records in three partitions that were stopped after one round.
const RESTART: &str = r#"{"data":[{"records":["a","b","c","d","e","f","g"]}],
        "job":{"id":"j","step":[{"chunk":{"item-count":2},"id":"s","partition":{"plan":{"partitions":3}}}]},
        "resume":{"outputs":[["xa","xb","xc"],["xd","xe"],[]],
                  "saved":{"rows":[[0,3,2,0,0,2,2,2,1,0,0,0,0,0,0,"waiting"],[3,5,5,3,0,2,2,2,1,0,0,0,0,0,0,"done"],[5,7,5,5,0,0,0,0,0,0,0,0,0,0,0,"waiting"]],"step":"s","version":2}}}"#;

/// Whether it has three rows, three outputs and one step.
fn is_that_restart(document: &RestartDocument) -> bool {
    let saved = document.resume.saved.rows().len();
    let held = document.resume.outputs.as_slice().len();
    saved == 3 && held == 3 && document.step_data.as_slice().len() == 1
}

/// Whether the document of a step is read in full, where there is memory for it; and so each of the three below.
fn reads_step(alloc: Global, text: &str) -> Option<bool> {
    let document = read_document(alloc, bytes_of(alloc, text).ok()?).ok()?;
    Some(has_one_step(&document))
}

fn reads_load(alloc: Global) -> Option<bool> {
    let load = read_load(alloc, bytes_of(alloc, LOAD).ok()?).ok()?;
    Some(is_that_load(&load))
}

fn reads_claim(alloc: Global) -> Option<bool> {
    let claim = read_claim(alloc, bytes_of(alloc, CLAIM).ok()?).ok()?;
    Some(is_that_claim(&claim))
}

fn reads_restart(alloc: Global) -> Option<bool> {
    let document = read_restart(alloc, bytes_of(alloc, RESTART).ok()?).ok()?;
    Some(is_that_restart(&document))
}

/// Whether all of them are read.
fn reads_all(alloc: Global) -> bool {
    let answers = [
        reads_step(alloc, ONE_STEP),
        reads_step(alloc, DATA_TWICE),
        reads_load(alloc),
        reads_claim(alloc),
        reads_restart(alloc),
    ];
    answers == [Some(true); 5]
}

/// With any one request refused, each document is read in full at the second try.
#[test]
fn wants_memory_or_answers_in_full(rt: HostRuntime) {
    worked_documents();
    assert!(rt; reads_all(rt.alloc()) || reads_all(rt.alloc()));
}
