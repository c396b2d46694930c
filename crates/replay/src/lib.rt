//! Works one trace through one manager, and tells what came of it, line by line.
#![tactic(auto)]

mod attach;
mod lines;
mod reported;
mod run;
mod said;

ghost use Rattle.std.specs.Prelude.{◌≡◌, IfOk, string_bytes};
ghost use Rattle.replay.specs.Runs.{report_of, Lawful};

use crate::attach::work_trace;
use crate::lines::push_stop;
use crate::reported::Report;
use std::alloc::{AllocError, Global};
use traces::reader::Reader;

/// The report of a trace. Records are worked as they are read, so that what was written before a refusal stays. Want of
/// memory is the only error. Where the report ends with a total, its account is what all calls of the trace leave, and
/// keeps the laws of the manager.
pub fn report(heap: Global, trace: &[u8]) -> Result<String, AllocError>
    ensures value { IfOk result (λ text. string_bytes text ≡ report_of trace.now) }
    ensures laws { Lawful trace.now }
{
    match Reader::new(trace) {
        Ok(reader) => {
            let mut report = Report {
                reader,
                text: String::new(heap),
            };
            work_trace(&mut report)?;
            Ok(report.text)
        }
        Err(refusal) => {
            let mut text = String::new(heap);
            push_stop(&mut text, refusal.place, refusal.fault.number())?;
            Ok(text)
        }
    }
}
