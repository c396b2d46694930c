//! The lines of a report, each put behind what is written so far.
ghost use Rattle.std.specs.Prelude.{◌≡◌, ◌^◌, ◌<◌, [], ◌∷◌, ◌++◌, string_bytes, OnOk};
ghost use Rattle.devices.specs.Meaning.{fault_names};
ghost use Rattle.traces.specs.Written.{Printable};
ghost use Rattle.replay.specs.Lines as lines;
ghost use Rattle.replay.specs.Runs.{lines_of};
ghost use Rattle.replay.specs.Shown.{spoken, Noted};

use crate::said::Said;
use devices::Fault;
use manager::{Account, ClosedGap};
use std::alloc::AllocError;

/// `stuck` or `clean`.
fn stuck_word(stuck: bool) -> &'static str
    ensures { result.now ≡ lines.stuck_word stuck }
{
    if stuck { "stuck" } else { "clean" }
}

/// The note as text, and a hyphen for none.
fn note_word(note: &[u8]) -> &str
    requires { Printable note.now }
    ensures { result.now ≡ lines.note_word note.now }
{
    if note.is_empty() {
        return "-";
    }
    match std::str::from_utf8(note) {
        Ok(word) => word,
        Err(_) => unreachable(),
    }
}

/// The line of the device.
pub(crate) fn push_device(out: &mut String, number: u16) -> Result<(), AllocError>
    ensures { OnOk result (string_bytes out.new ≡ string_bytes out.old ++ lines.text (lines.device number)) }
{
    writeln!(out, "device {number}")
}

/// The line of a closed gap.
fn push_gap(out: &mut String, gap: ClosedGap, note: &[u8]) -> Result<(), AllocError>
    requires { Printable note.now }
    ensures { OnOk result (string_bytes out.new ≡ string_bytes out.old ++ lines.text (lines.gap gap.length gap.stuck gap.energy gap.floor gap.«from» gap.latency note.now)) }
{
    let ClosedGap {
        length,
        energy,
        floor,
        stuck,
        from,
        latency,
    } = gap;
    let stuck = stuck_word(stuck);
    let note = note_word(note);
    writeln!(
        out,
        "gap {length} {stuck} {energy} {floor} {from} {latency} {note}"
    )
}

// Below, `out` is the report's and `place` the record's: they meet only in a line, so no type holds both.

/// The line of a fault that held a request up.
fn push_jam(out: &mut String, place: usize, fault: Fault) -> Result<(), AllocError>
    ensures { OnOk result (string_bytes out.new ≡ string_bytes out.old ++ lines.text (lines.jam place (fault_names fault))) }
{
    writeln!(out, "jam {place} {fault}")
}

/// What a record at a place said.
pub(crate) fn push_said(out: &mut String, place: usize, said: Said<'_>) -> Result<(), AllocError>
    requires { Noted (spoken said) }
    ensures { OnOk result (string_bytes out.new ≡ string_bytes out.old ++ lines.written (lines_of place (spoken said.entry))) }
{
    match said {
        Said::Quiet => Ok(()),
        Said::Gap(gap, note) => push_gap(out, gap, note),
        Said::Jam(fault) => push_jam(out, place, fault),
    }
}

/// The line of a refusal that ends a run. A number tells it: refusals of three types come here.
pub(crate) fn push_stop(out: &mut String, place: usize, number: u8) -> Result<(), AllocError>
    ensures { OnOk result (string_bytes out.new ≡ string_bytes out.old ++ lines.written (lines.stop place number ∷ [])) }
{
    writeln!(out, "stop {place} {number}")
}

/// The line of an account, with all its energy.
pub(crate) fn push_total(out: &mut String, account: &Account) -> Result<(), AllocError>
    requires { lines.energy_sum account.now < 2 ^ 64 }
    ensures { OnOk result (string_bytes out.new ≡ string_bytes out.old ++ lines.text (lines.total account.now)) }
{
    let sum = account.clean + account.stuck + account.busy + account.pending;
    let (clean, floor, stuck) = (account.clean, account.floor, account.stuck);
    let (busy, pending) = (account.busy, account.pending);
    writeln!(out, "total {clean} {floor} {stuck} {busy} {pending} {sum}")
}

/// The last line of a run that came to its end.
pub(crate) fn push_end(out: &mut String) -> Result<(), AllocError>
    ensures { OnOk result (string_bytes out.new ≡ string_bytes out.old ++ lines.text lines.end) }
{
    writeln!(out, "end")
}
