//! A round delivered to the ready analyzer where memory is refused.

use crate::chunk::memory::committed;
use jb_base::ArtifactError;
use jb_collect::{Analyzer, AnalyzerCall, ListAnalyzer, Status, deliver};
use std::test::Fail;

/// With any one request refused, the analyzer hears all of an attempt, or there is no memory for one of the calls.
#[test]
fn wants_memory_or_answers_in_full(rt: HostRuntime) -> Result<(), Fail> {
    let done = committed(&rt, rt.alloc())?;
    let mut analyzer = ListAnalyzer::new(rt.alloc(), None);
    match deliver(&[done], &mut analyzer) {
        Ok(()) => {
            let last = analyzer.calls().last();
            assert!(rt; matches!(last, Some(AnalyzerCall::Status(0, Status::Completed))));
            assert!(rt; analyzer.calls().len() == 3);
        }
        Err(fault) => {
            assert!(rt; fault == ArtifactError::Memory && analyzer.calls().len() < 3);
        }
    }
    Ok(())
}
