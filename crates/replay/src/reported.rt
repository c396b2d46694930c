//! A trace while it is worked.
ghost use Rattle.std.specs.Prelude.{IfOk, string_bytes};
ghost use Rattle.replay.specs.Shown.{Opens};

use crate::lines::push_stop;
use std::alloc::AllocError;
use traces::event::Record;
use traces::reader::Reader;

/// A trace that is being read, and its report so far.
#[derive(Drop)]
pub struct Report<'a> {
    pub reader: Reader<'a>,
    pub text: String,
}

impl<'a> Report<'a> {
    /// The next record. Where there is none, how the reading ends is written.
    pub(crate) fn next_or_stop(&mut self) -> Result<Option<Record<'a>>, AllocError>
        ensures { IfOk result (λ handed. Opens handed self.old.reader self.new.reader (string_bytes self.old.text) (string_bytes self.new.text)) }
    {
        match self.reader.next() {
            Ok(handed) => Ok(handed),
            Err(refusal) => {
                push_stop(&mut self.text, refusal.place, refusal.fault.number())?;
                Ok(None)
            }
        }
    }
}
