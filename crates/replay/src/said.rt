//! What a record says.
ghost use Rattle.std.specs.Prelude.{◌≡◌};
ghost use Rattle.replay.specs.Halts.{halt_number};
ghost use Rattle.replay.specs.declared.said.Halt.TheVariants.{Refused};

use devices::Fault;
use manager::{ClosedGap, Refusal};

/// What a record says, if it does not end the run: one of three things, so no `Option` says it.
#[derive(Clone, Copy, Debug, PartialEq, Eq)]
pub enum Said<'a> {
    /// Nothing.
    Quiet,
    /// It closed a gap, with this note.
    Gap(ClosedGap, &'a [u8]),
    /// A fault held it up.
    Jam(Fault),
}

/// Why a record ends the run.
#[derive(Clone, Copy, Debug, PartialEq, Eq)]
pub enum Halt {
    /// The manager refused a call.
    Refused(Refusal),
    /// The record is for another device's number.
    OtherNumber,
    /// A release, with no lease out.
    NoLease,
}

impl Halt {
    /// The number of the refusal.
    pub(crate) fn number(self) -> u8
        ensures { result ≡ halt_number self }
    {
        // A case with values has no number of its own.
        match self {
            Halt::Refused(why) => why.number(),
            Halt::OtherNumber => 25,
            Halt::NoLease => 22,
        }
    }
}

impl From<Refusal> for Halt {
    ghost from_gives = { λ e r. r ≡ Refused e };

    fn from(e: Refusal) -> Halt {
        Halt::Refused(e)
    }
}
