//! The definitions give the worked texts, of which no code is spoken; and a report where memory is refused.

ghost use Rattle.std.specs.Prelude.{◌≡◌, codes, None, Some, false, true};
ghost use Rattle.jb_cert.specs.declared.plans.PlanFault.TheVariants.{OutOfOrder};
ghost use Rattle.jb_texts.specs.CheckText.{check_text};
ghost use Rattle.jb_texts.specs.PlanText.{text_of_load};
ghost use Rattle.jb_texts.specs.Report.{report_text};
ghost use Rattle.jb_texts.specs.Worked.{nothing, one_long, one_long_text, seven_records, seven_records_text, three_equal, three_equal_text};

use jb_base::{PackedList, Range};
use jb_cert::{Certificate, PlanNote};
use jb_collect::{AnalyzerCall, ReducerCall, Status};
use jb_rules::Row;
use jb_texts::{ReportText, StepsText};
use std::alloc::{AllocError, Global};

fn worked_plans()
    ensures three_equal { text_of_load three_equal ≡ three_equal_text }
    ensures one_long { text_of_load one_long ≡ one_long_text }
    ensures nothing { text_of_load nothing ≡ codes "rounds 0 Nothing\n" }
{}

fn worked_report()
    ensures seven_records { report_text seven_records ≡ seven_records_text }
{}

fn worked_findings()
    ensures lawful { check_text (record { fault = None; certified = false }) ≡ codes "plan lawful\ncertificate no\n" }
    ensures faulty { check_text (record { fault = Some OutOfOrder; certified = true }) ≡ codes "plan OutOfOrder\ncertificate yes\n" }
{}

#[test]
fn definitions_meet_worked_rows(_rt: HostRuntime) {
    worked_plans();
    worked_report();
    worked_findings();
}

/// The report of a step with one partition, which has no record.
const NO_RECORD: &str =
    r#"{"job":"j","status":"COMPLETED","steps":[{"heard":[["COMPLETED"]],"outputs":[[]],"plans":[["Longest(0)",2,2]],"reducer":["begin"],"saved":{"rows":[[0,0,0,0,0,0,0,0,0,0,0,0,0,0,0,"done"]],"step":"s","version":2},"status":"COMPLETED","step":"s"}]}"#;

fn report_of(alloc: Global) -> Result<ReportText, AllocError> {
    let note = PlanNote {
        certificate: Certificate::Longest(0),
        planned: 2,
        ran: 2,
    };
    let row = Row::fresh(Range { lo: 0, hi: 0 });
    let mut steps = StepsText::new(alloc)?;
    steps.begin_step(alloc, 1, &[AnalyzerCall::Status(0, Status::Completed)])?;
    steps.add_outputs(alloc, PackedList::new(alloc))?;
    steps.end_step(
        alloc,
        &[row],
        &[note],
        &[ReducerCall::Begin],
        Status::Completed,
        "s",
    )?;
    ReportText::new(alloc, "j", Status::Completed, steps)
}

/// With any one request refused, the report is the whole one or there is no memory for it.
#[test]
fn wants_memory_or_answers_in_full(rt: HostRuntime) {
    let Ok(report) = report_of(rt.alloc()) else {
        return;
    };
    let mut text = Vec::new(rt.alloc());
    if report.write_to(&mut text).is_ok() {
        assert!(rt; text.strip_suffix(b"\n") == Some(NO_RECORD.as_bytes()));
    }
}
