//! One record, from the bytes where it starts.
ghost use Rattle.std.specs.Prelude.{◌≡◌, ◌+◌, ◌≤◌, length, IfOk};
ghost use Rattle.std.specs.Option.{option_map};
ghost use Rattle.traces.specs.Layout.{content, item, printable, read_body, read_one, shown};
ghost use Rattle.traces.specs.declared.order.Kind.TheVariants as kind;

use crate::event::{Event, Fault};
use crate::order::{Kind, Stage};

/// A table has 1 to this many rows.
const MAX_ROWS: u8 = 16;

/// The bytes of a row.
// As in `devices`, on which this crate does not depend.
const ROW_LEN: usize = 12;

/// The longest note.
const MAX_NOTE: usize = 16;

/// The least byte of a note: the first after the space.
const FIRST_PRINTABLE: u8 = 33;

/// The greatest byte of a note.
const LAST_PRINTABLE: u8 = 126;

/// The most ticks in one record.
const MAX_TICKS: u32 = 1_000_000;

/// The bytes of a length and a kind.
const HEAD_LEN: usize = 4;

/// The bytes of a kind, which the length counts.
const KIND_LEN: usize = 2;

/// A record that was read: what it says, how many bytes it takes, and the stage after it.
#[derive(Clone, Copy, Debug, PartialEq, Eq)]
pub struct Taken<'a> {
    pub event: Event<'a>,
    pub size: usize,
    pub stage: Stage,
}

/// A device's number and its rows, 1 to 16.
fn table(body: &[u8]) -> Option<Event<'_>>
    ensures { option_map item result ≡ content kind.Table body.now }
{
    match body {
        [n0, n1, count, rows @ ..]
            if (1..=MAX_ROWS).contains(count) && rows.len() == ROW_LEN * usize::from(*count) =>
            Some(Event::Table {
                number: u16::from_le_bytes([*n0, *n1]),
                rows,
            }),
        _ => None,
    }
}

/// A latency limit.
fn limit(body: &[u8]) -> Option<Event<'_>>
    ensures { option_map item result ≡ content kind.Limit body.now }
{
    match body {
        [a, b, c, d] => Some(Event::Limit {
            latency: u32::from_le_bytes([*a, *b, *c, *d]),
        }),
        _ => None,
    }
}

/// A count of ticks, 1 to 1,000,000.
fn ticks(body: &[u8]) -> Option<Event<'_>>
    ensures { option_map item result ≡ content kind.Ticks body.now }
{
    match body {
        [a, b, c, d] => match u32::from_le_bytes([*a, *b, *c, *d]) {
            count @ 1..=MAX_TICKS => Some(Event::Ticks { count }),
            _ => None,
        },
        _ => None,
    }
}

/// Whether each byte of a note can be printed, and is no space.
fn is_printable(note: &[u8]) -> bool
    ensures { result ≡ printable note.now }
{
    note.iter()
        .all(|b| (FIRST_PRINTABLE..=LAST_PRINTABLE).contains(b))
}

/// A device's number and a note.
fn request(body: &[u8]) -> Option<Event<'_>>
    ensures { option_map item result ≡ content kind.Request body.now }
{
    match body {
        [n0, n1, note @ ..] if note.len() <= MAX_NOTE && is_printable(note) => Some(
            Event::Request {
                number: u16::from_le_bytes([*n0, *n1]),
                note,
            },
        ),
        _ => None,
    }
}

/// A device's number.
fn release(body: &[u8]) -> Option<Event<'_>>
    ensures { option_map item result ≡ content kind.Release body.now }
{
    match body {
        [a, b] => Some(Event::Release {
            number: u16::from_le_bytes([*a, *b]),
        }),
        _ => None,
    }
}

/// A device's number and a code.
fn report(body: &[u8]) -> Option<Event<'_>>
    ensures { option_map item result ≡ content kind.Report body.now }
{
    match body {
        [n0, n1, a, b, c, d] => Some(Event::Report {
            number: u16::from_le_bytes([*n0, *n1]),
            code: u32::from_le_bytes([*a, *b, *c, *d]),
        }),
        _ => None,
    }
}

/// The event in a body of this kind, or `None` where the body is wrong.
fn event_of(kind: Kind, body: &[u8]) -> Option<Event<'_>>
    ensures { option_map item result ≡ content kind body.now }
{
    match kind {
        Kind::Table => table(body),
        Kind::Limit => limit(body),
        Kind::Ticks => ticks(body),
        Kind::Request => request(body),
        Kind::Release => release(body),
        Kind::Report => report(body),
        Kind::End => body.is_empty().then_some(Event::End),
    }
}

/// The record of the kind numbered `code` and with this body.
fn read_body(stage: Stage, code: u16, body: &[u8]) -> Result<Taken<'_>, Fault>
    ensures value { shown result ≡ read_body stage code body.now }
    ensures size { IfOk result (λ t. t.size ≡ 4 + length body.now) }
{
    let kind = Kind::try_from(code)?;
    let stage = stage.after(kind).ok_or(Fault::OutOfOrder)?;
    let event = event_of(kind, body).ok_or(Fault::Malformed)?;
    Ok(Taken {
        event,
        size: HEAD_LEN + body.len(),
        stage,
    })
}

/// The record at the front of `bytes`.
pub(crate) fn read_one(stage: Stage, bytes: &[u8]) -> Result<Taken<'_>, Fault>
    ensures value { shown result ≡ read_one stage bytes.now }
    ensures within { IfOk result (λ t. (4 ≤ t.size) × (t.size ≤ length bytes.now)) }
{
    let [l0, l1, k0, k1, rest @ ..] = bytes else {
        return Err(Fault::Cut);
    };
    let length = usize::from(u16::from_le_bytes([*l0, *l1]));
    // A length below 2 never asks for more bytes than are left, so either of the two tests may come first.
    let body_len = length.checked_sub(KIND_LEN).ok_or(Fault::Malformed)?;
    let body = rest.get(..body_len).ok_or(Fault::Cut)?;
    read_body(stage, u16::from_le_bytes([*k0, *k1]), body)
}
