//! The kinds of record, and the order that they come in.
ghost use Rattle.std.specs.Prelude.{◌≡◌};
ghost use Rattle.std.specs.Option.{ok_or};
ghost use Rattle.traces.specs.Layout.{follows, kind_of};
ghost use Rattle.traces.specs.declared.event.Fault.TheVariants.{UnknownKind};

use crate::event::Fault;

/// The kinds of record, by their numbers 1 to 7.
#[derive(Clone, Copy, Debug, PartialEq, Eq)]
pub enum Kind {
    Table,
    Limit,
    Ticks,
    Request,
    Release,
    Report,
    End,
}

impl TryFrom<u16> for Kind {
    type Error = Fault;

    ghost try_from_gives = { λ code r. r ≡ ok_or (kind_of code) UnknownKind };

    /// The kind that a number stands for.
    fn try_from(code: u16) -> Result<Self, Fault> {
        match code {
            1 => Ok(Kind::Table),
            2 => Ok(Kind::Limit),
            3 => Ok(Kind::Ticks),
            4 => Ok(Kind::Request),
            5 => Ok(Kind::Release),
            6 => Ok(Kind::Report),
            7 => Ok(Kind::End),
            _ => Err(Fault::UnknownKind),
        }
    }
}

/// How far a reader has come: before the table, just after it, past a limit, past the end.
#[derive(Clone, Copy, Debug, PartialEq, Eq)]
pub enum Stage {
    Start,
    Opened,
    Running,
    Ended,
}

impl Stage {
    /// The stage after a record of this kind, or `None` where the order forbids it.
    pub(crate) fn after(self, kind: Kind) -> Option<Stage>
        ensures { result ≡ follows self kind }
    {
        match (self, kind) {
            (Stage::Start, Kind::Table) => Some(Stage::Opened),
            (Stage::Start, _)
            | (_, Kind::Table)
            | (Stage::Ended, _)
            | (Stage::Running, Kind::Limit) => None,
            (_, Kind::End) => Some(Stage::Ended),
            _ => Some(Stage::Running),
        }
    }
}
