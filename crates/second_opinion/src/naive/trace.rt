//! The records of a trace, read one by one.
use crate::naive::answer::Refusal;
use std::fmt;

/// A kind of record, with its number.
#[derive(Clone, Copy, Debug, PartialEq, Eq)]
pub enum Kind {
    Table = 1,
    Limit,
    Ticks,
    Request,
    Release,
    Report,
    End,
}

/// The note of a request.
#[derive(Clone, Copy, Debug)]
pub struct Note<'a>(&'a [u8]);

/// A record that has passed its checks, but for the end.
#[derive(Clone, Copy, Debug)]
pub enum Record<'a> {
    Table { number: u16, rows: &'a [u8] },
    Limit(u32),
    Ticks(u32),
    Request { number: u16, note: Note<'a> },
    Release(u16),
    Report { number: u16, code: u32 },
}

/// The bytes that are left of a trace, the offset where they start, and the kind of the last record, if there was one.
#[derive(Clone, Copy, Debug)]
pub struct Records<'a> {
    rest: &'a [u8],
    offset: usize,
    before: Option<Kind>,
}

impl Kind {
    /// The kind with a number, which is refused where there is none.
    fn numbered(number: u16) -> Result<Kind, Refusal> {
        match number {
            1 => Ok(Kind::Table),
            2 => Ok(Kind::Limit),
            3 => Ok(Kind::Ticks),
            4 => Ok(Kind::Request),
            5 => Ok(Kind::Release),
            6 => Ok(Kind::Report),
            7 => Ok(Kind::End),
            _ => Err(Refusal::numbered(2)),
        }
    }

    /// Whether a record of this kind may follow one of another kind, or begin a trace.
    fn may_follow(self, before: Option<Kind>) -> bool {
        match before {
            None => self == Kind::Table,
            Some(Kind::Table) => self != Kind::Table,
            Some(_) => self != Kind::Table && self != Kind::Limit,
        }
    }
}

impl<'a> fmt::Display for Note<'a> {
    fn fmt<W: fmt::Write>(&self, f: &mut fmt::Formatter<W>) -> fmt::Result {
        if self.0.is_empty() {
            write!(f, "-")?;
        }
        for byte in self.0 {
            let character = char::from(*byte);
            write!(f, "{character}")?;
        }
        Ok(())
    }
}

/// The table of a body, if it is one.
fn table<'a>(number: u16, count: u8, rows: &'a [u8]) -> Result<Record<'a>, Refusal> {
    if count >= 1 && count <= 16 && rows.len() == usize::from(count) * 12 {
        Ok(Record::Table { number, rows })
    } else {
        Err(Refusal::numbered(3))
    }
}

/// The ticks of a body, if their count is in range.
fn ticks<'a>(count: u32) -> Result<Record<'a>, Refusal> {
    if count >= 1 && count <= 1_000_000 {
        Ok(Record::Ticks(count))
    } else {
        Err(Refusal::numbered(3))
    }
}

/// The request of a body, if its note is one.
fn request<'a>(number: u16, note: &'a [u8]) -> Result<Record<'a>, Refusal> {
    if note.len() <= 16 && note.iter().all(|byte| *byte >= 33 && *byte <= 126) {
        let note = Note(note);
        Ok(Record::Request { number, note })
    } else {
        Err(Refusal::numbered(3))
    }
}

/// The record of a kind with a body, none for the end; refused if the body is not right.
fn content<'a>(kind: Kind, body: &'a [u8]) -> Result<Option<Record<'a>>, Refusal> {
    let record = match (kind, body) {
        (Kind::Table, [a, b, count, rows @ ..]) => {
            table(u16::from_le_bytes([*a, *b]), *count, rows)?
        }
        (Kind::Limit, [a, b, c, d]) => Record::Limit(u32::from_le_bytes([*a, *b, *c, *d])),
        (Kind::Ticks, [a, b, c, d]) => ticks(u32::from_le_bytes([*a, *b, *c, *d]))?,
        (Kind::Request, [a, b, note @ ..]) => request(u16::from_le_bytes([*a, *b]), note)?,
        (Kind::Release, [a, b]) => Record::Release(u16::from_le_bytes([*a, *b])),
        (Kind::Report, [a, b, c, d, e, f]) => Record::Report {
            number: u16::from_le_bytes([*a, *b]),
            code: u32::from_le_bytes([*c, *d, *e, *f]),
        },
        (Kind::End, []) => return Ok(None),
        _ => return Err(Refusal::numbered(3)),
    };
    Ok(Some(record))
}

impl<'a> Records<'a> {
    /// The records of a trace, none of which is read yet.
    pub(crate) fn new(trace: &'a [u8]) -> Records<'a> {
        Records {
            rest: trace,
            offset: 0,
            before: None,
        }
    }

    /// The place of the next record.
    pub(crate) fn place(&self) -> usize {
        self.offset
    }

    /// How many bytes are not read yet.
    pub(crate) fn left(&self) -> usize {
        self.rest.len()
    }

    /// Reads the next record, none for the end. A record that is refused is not read.
    pub(crate) fn next(&mut self) -> Result<Option<Record<'a>>, Refusal> {
        let cut_short = Refusal::numbered(1);
        let [length_low, length_high, kind_low, kind_high, behind @ ..] = self.rest else {
            return Err(cut_short);
        };
        let length = usize::from(u16::from_le_bytes([*length_low, *length_high]));
        if length < 2 {
            return Err(Refusal::numbered(3));
        }
        if length - 2 > behind.len() {
            return Err(cut_short);
        }
        let (body, rest) = behind.split_at(length - 2);
        let kind = Kind::numbered(u16::from_le_bytes([*kind_low, *kind_high]))?;
        if !kind.may_follow(self.before) {
            return Err(Refusal::numbered(4));
        }
        let record = content(kind, body)?;
        self.rest = rest;
        self.offset = self.offset.wrapping_add(2).wrapping_add(length);
        self.before = Some(kind);
        Ok(record)
    }
}
