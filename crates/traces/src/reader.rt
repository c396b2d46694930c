//! Hands out a trace record by record.
ghost use Rattle.std.specs.Prelude.{◌≡◌, ◌<◌, length, MatchResult};
ghost use Rattle.traces.specs.Reading.{Handed, Stays, ends, handed, reading, stop};
ghost use Rattle.traces.specs.Written.{Proper};

use crate::decode::read_one;
use crate::event::{Fault, Record, Refusal};
use crate::order::Stage;
use std::marker::Model;

/// The most bytes of a trace.
const MAX_TRACE: usize = 65_536;

/// The bytes that are left of a trace, the offset where they start, and the stage there. A clause sees what it has yet to
/// hand out.
#[derive(Drop)]
pub struct Reader<'a> {
    rest: &'a [u8],
    offset: usize,
    stage: Stage,
}

impl<'a> Model for Reader<'a> {
    ghost use Rattle.traces.specs.Reading.{Reading};

    ghost Value = { Reading };

    ghost use Rattle.traces.specs.Ahead.{IsWithin, ahead};

    ghost view = { ahead };

    ghost invariant = { IsWithin };
}

impl<'a> Reader<'a> {
    /// A reader at the start of a trace, unless that has too many bytes.
    #[tactic(auto, unfolding(crate::specs::Reading::reading))]
    pub fn new(trace: &'a [u8]) -> Result<Reader<'a>, Refusal>
        ensures { MatchResult result (λ reader. reader ≡ reading trace.now) (λ e. reading trace.now ≡ ends (stop e)) }
    {
        if trace.len() > MAX_TRACE {
            return Err(Refusal {
                place: MAX_TRACE,
                fault: Fault::TooLong,
            });
        }
        Ok(Reader {
            rest: trace,
            offset: 0,
            stage: Stage::Start,
        })
    }

    /// The next record, or `None` once the end record was read and nothing follows it.
    /// Where no record is handed out, the reader stays as it was.
    #[tactic(auto, using(crate::proofs::Steps::remaining_step, std::proofs::lemmas::Slice::between_to_end))]
    pub fn next(&mut self) -> Result<Option<Record<'a>>, Refusal>
        ensures value { self.old ≡ handed result self.new }
        ensures stays { Stays result self.old self.new }
        ensures moves { Handed (λ _. length self.new.records < length self.old.records) result }
        ensures proper { Handed Proper result }
    {
        let place = self.offset;
        if self.stage == Stage::Ended {
            if self.rest.is_empty() {
                return Ok(None);
            }
            return Err(Refusal {
                place,
                fault: Fault::OutOfOrder,
            });
        }
        let taken = read_one(self.stage, self.rest).map_err(|fault| Refusal { place, fault })?;
        self.rest = &self.rest[taken.size..];
        self.offset += taken.size;
        self.stage = taken.stage;
        Ok(Some(Record {
            offset: place,
            event: taken.event,
        }))
    }
}
