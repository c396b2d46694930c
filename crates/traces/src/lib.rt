//! Reads a binary trace record by record, without copying it, and says where and why it is refused.
#![tactic(auto)]

ghost use Rattle.traces.specs.Reading.{Counts, reading};
ghost use Rattle.traces.specs.Written.{OnlyWritten, ReadsBack};

mod decode;
pub mod event;
mod order;
pub mod reader;

use crate::event::Refusal;
use crate::reader::Reader;

/// How many records a trace has, or its first refusal.
#[tactic(auto, using(crate::proofs::Inverse::reads_back, crate::proofs::Inverse::only_written_by_place, crate::proofs::Steps::few_records))]
pub fn check(trace: &[u8]) -> Result<usize, Refusal>
    ensures value { Counts result (reading trace.now) }
    ensures back { ReadsBack }
    ensures only { OnlyWritten trace.now }
{
    let mut reader = Reader::new(trace)?;
    let mut count = 0;
    // A plain loop: as an `Iterator` the reader would hand out refusals as items, and `count` would count them.
    while let Some(_) = reader.next()? {
        count += 1;
    }
    Ok(count)
}
