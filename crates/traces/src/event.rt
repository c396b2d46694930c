//! What a trace holds, and why it is refused.
ghost use Rattle.std.specs.Prelude.{◌≡◌};
ghost use Rattle.traces.specs.Layout.{told};

/// What a record says, with its rows or its note borrowed from the trace.
#[derive(Clone, Copy, Debug, PartialEq, Eq)]
pub enum Event<'a> {
    Table { number: u16, rows: &'a [u8] },
    Limit { latency: u32 },
    Ticks { count: u32 },
    Request { number: u16, note: &'a [u8] },
    Release { number: u16 },
    Report { number: u16, code: u32 },
    End,
}

/// An event, and the offset where its record starts.
#[derive(Clone, Copy, Debug, PartialEq, Eq)]
pub struct Record<'a> {
    pub offset: usize,
    pub event: Event<'a>,
}

/// Why a trace is refused.
#[derive(Clone, Copy, Debug, PartialEq, Eq)]
pub enum Fault {
    /// The bytes end before a record is complete, or without an end record.
    Cut,
    /// The kind is not known.
    UnknownKind,
    /// The length is below 2, or the body is wrong.
    Malformed,
    /// The kind may not stand here, or bytes follow the end record.
    OutOfOrder,
    /// The trace has too many bytes.
    TooLong,
}

impl Fault {
    /// The number that the fault is told by.
    pub fn number(self) -> u8
        ensures { result ≡ told self }
    {
        // No numbers at the cases: who casts one by `as` gets its place among them.
        match self {
            Fault::Cut => 1,
            Fault::UnknownKind => 2,
            Fault::Malformed => 3,
            Fault::OutOfOrder => 4,
            Fault::TooLong => 5,
        }
    }
}

/// A fault, and the offset of the record at fault or of the first byte that is too much.
#[derive(Clone, Copy, Debug, PartialEq, Eq)]
pub struct Refusal {
    pub place: usize,
    pub fault: Fault,
}
