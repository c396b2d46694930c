//! Trials on pseudo-random traces, whole and damaged.
use crate::bench::Bench;
use crate::naive::report;
use crate::naive::trace::Kind;
use crate::rows;
use crate::tried::more;
use samples::Random;
use std::alloc::{AllocError, Global};

/// Rows of two states: powers 3 and 1, wake energies 0 and 9, latencies 0 and 4.
const TWO_STATES: &[u8] = b"\x03\0\0\0\0\0\0\0\0\0\0\0\x01\0\0\0\x09\0\0\0\x04\0\0\0";

/// The lengths of two gaps, about a million ticks in all.
const MILLION: [[u32; 2]; 5] = [
    [1_000_000, 1],
    [999_999, 1],
    [400_000, 600_001],
    [1, 999_999],
    [600_000, 400_000],
];

/// A trace that is being written.
#[derive(Debug, Drop)]
struct Writer {
    bytes: Vec<u8>,
    number: u16,
    /// Whether a release is due, as far as no request was refused.
    busy: bool,
}

impl Writer {
    /// A trace that starts with the table of some rows.
    fn new(heap: Global, number: u16, rows: &[u8]) -> Result<Writer, AllocError> {
        let mut writer = Writer {
            bytes: Vec::new(heap),
            number,
            busy: false,
        };
        let [low, high] = number.to_le_bytes();
        let count = ((rows.len() / 12) & 0xff) as u8;
        writer.add(Kind::Table, &[low, high, count], rows)?;
        Ok(writer)
    }

    /// Adds a record with a body of two pieces.
    fn add(&mut self, kind: Kind, front: &[u8], back: &[u8]) -> Result<(), AllocError> {
        self.add_numbered(kind as u16, front, back)
    }

    /// Adds a record of a kind with a number, which may be that of no kind, with a body of two pieces.
    fn add_numbered(&mut self, kind: u16, front: &[u8], back: &[u8]) -> Result<(), AllocError> {
        let length = (front.len().wrapping_add(back.len()).wrapping_add(2) & 0xffff) as u16;
        self.bytes.extend_from_slice(&length.to_le_bytes())?;
        self.bytes.extend_from_slice(&kind.to_le_bytes())?;
        self.bytes.extend_from_slice(front)?;
        self.bytes.extend_from_slice(back)
    }

    /// Adds a request or a release, mostly the one that is due; a note rarely has a byte too many.
    fn turn(&mut self, random: &mut Random, number: &[u8]) -> Result<(), AllocError> {
        let release = self.busy ^ random.once_in(100);
        self.busy = !release;
        if release {
            return self.add(Kind::Release, number, b"");
        }
        let note = printable(random);
        let length = if random.once_in(200) {
            17
        } else {
            random.place(17)
        };
        self.add(Kind::Request, number, &note[..length])
    }

    /// Adds a record that may follow, rarely one for another number, out of order or of an unknown kind.
    fn add_any(&mut self, random: &mut Random) -> Result<(), AllocError> {
        let number = if random.once_in(300) {
            random.short(65_536)
        } else {
            self.number
        };
        let number = number.to_le_bytes();
        match random.below(400) {
            0 => {
                let kind = random.short(10);
                self.add_numbered(kind, &random.word().to_le_bytes(), b"")
            }
            1..=40 => {
                let code = if random.once_in(2) { random.word() } else { 0 };
                self.add(Kind::Report, &number, &code.to_le_bytes())
            }
            41..=200 => self.turn(random, &number),
            _ => {
                let count = tick_count(random);
                self.add(Kind::Ticks, &count.to_le_bytes(), b"")
            }
        }
    }

    /// Adds a gap of so many ticks, with a request and a release behind it.
    fn gap(&mut self, ticks: u32) -> Result<(), AllocError> {
        let number = self.number.to_le_bytes();
        self.add(Kind::Ticks, &ticks.to_le_bytes(), b"")?;
        self.add(Kind::Request, &number, b"")?;
        self.add(Kind::Release, &number, b"")
    }
}

/// Bytes that a note may have, one more than it may.
fn printable(random: &mut Random) -> [u8; 17] {
    let mut note = [0u8; 17];
    for byte in note.iter_mut() {
        *byte = random.below(94) as u8 + 33;
    }
    note
}

/// A count of ticks, mostly small, rarely out of range.
fn tick_count(random: &mut Random) -> u32 {
    match random.below(1_000) {
        0 => 0,
        1 => 1_000_001,
        2 => u32::MAX,
        3 => 600_000,
        4..=40 => random.below(2_000).wrapping_add(1),
        _ => random.below(12).wrapping_add(1),
    }
}

/// A trace of so many records behind its table and limit, if it does not pass about so many bytes.
fn written(bench: &mut Bench, records: u32, most: usize) -> Result<Vec<u8>, AllocError> {
    let number = bench.random.short(65_536);
    let rows = rows::rows(bench)?;
    let mut writer = Writer::new(bench.heap, number, rows.as_slice())?;
    let random = &mut bench.random;
    if random.once_in(3) {
        let limit = if random.once_in(8) {
            random.word()
        } else {
            random.below(16)
        };
        writer.add(Kind::Limit, &limit.to_le_bytes(), b"")?;
    }
    for _ in 0..records {
        if writer.bytes.len() < most {
            writer.add_any(random)?;
        }
    }
    writer.add(Kind::End, b"", b"")?;
    Ok(writer.bytes)
}

/// Damages a trace in one place.
fn damage(random: &mut Random, bytes: &mut Vec<u8>) -> Result<(), AllocError> {
    let place = random.place(bytes.len());
    let byte = random.byte();
    if place >= bytes.len() {
        return Ok(());
    }
    match random.below(6) {
        0 => bytes.truncate(place),
        1 => bytes[place] = byte,
        2 => bytes[place] ^= 1u8.wrapping_shl(random.below(8)),
        3 => {
            let _ = bytes.remove(place);
        }
        4 => bytes.insert(place, byte)?,
        _ => bytes.push(byte)?,
    }
    Ok(())
}

/// Reports a trace by the library and by the naive code, and compares the texts.
fn compare(bench: &mut Bench, trace: &[u8]) -> Result<(), AllocError> {
    let plain = report::report_of(bench.heap, trace)?;
    let text = replay::report(bench.heap, trace)?;
    let tried = &mut bench.tried;
    tried.reports.note(text.as_str() == plain.text.as_str());
    tried.gap_lines = tried.gap_lines.saturating_add(plain.gaps);
    tried.jam_lines = tried.jam_lines.saturating_add(plain.jams);
    match plain.end {
        Ok(()) => more(&mut tried.whole),
        Err(stop) => tried.stops.note(stop.number),
    }
    Ok(())
}

/// One trial on a short trace, damaged now and then.
pub(crate) fn trial(bench: &mut Bench) -> Result<(), AllocError> {
    let records = bench.random.below(25);
    let mut trace = written(bench, records, 10_000)?;
    if bench.random.once_in(2) {
        damage(&mut bench.random, &mut trace)?;
    }
    compare(bench, trace.as_slice())
}

/// One trial on a trace of thousands of records, nearly as long as a trace may be, or longer.
pub(crate) fn long_trial(bench: &mut Bench) -> Result<(), AllocError> {
    let most = bench.random.place(500).wrapping_add(65_200);
    let trace = written(bench, 20_000, most)?;
    compare(bench, trace.as_slice())
}

/// A trace of exactly so many bytes: a request with a note that makes the rest a multiple of 8, and ticks.
fn filled(heap: Global, size: usize) -> Result<Vec<u8>, AllocError> {
    let mut writer = Writer::new(heap, 5, TWO_STATES)?;
    let left = size.saturating_sub(writer.bytes.len()).saturating_sub(10);
    let note = &b"noteworthy"[..left % 8];
    writer.add(Kind::Request, b"\x05\0", note)?;
    for _ in 0..left / 8 {
        writer.add(Kind::Ticks, b"\x07\0\0\0", b"")?;
    }
    writer.add(Kind::End, b"", b"")?;
    Ok(writer.bytes)
}

/// The traces at the limits: a million ticks and one more, 65,536 bytes and one more, and none.
pub(crate) fn edges(bench: &mut Bench) -> Result<(), AllocError> {
    for gaps in MILLION {
        let mut writer = Writer::new(bench.heap, 5, TWO_STATES)?;
        for ticks in gaps {
            writer.gap(ticks)?;
        }
        writer.add(Kind::End, b"", b"")?;
        compare(bench, writer.bytes.as_slice())?;
    }
    for size in 65_533usize..65_540 {
        let trace = filled(bench.heap, size)?;
        compare(bench, trace.as_slice())?;
    }
    compare(bench, b"")
}
