//! From the first record of a trace to the run: the device, its limit, and attach.
ghost use Rattle.std.specs.Prelude.{◌≡◌, ◌++◌, Some, string_bytes, OnOk};
ghost use Rattle.devices.specs.Rows as tables;
ghost use Rattle.traces.specs.Layout as layout;
ghost use Rattle.traces.specs.Written.{Proper};
ghost use Rattle.replay.specs.Lines as lines;
ghost use Rattle.replay.specs.Runs as runs;

use crate::lines::push_stop;
use crate::reported::Report;
use crate::run::Run;
use devices::{Device, LatencyLimit, TableDevice};
use std::alloc::AllocError;
use traces::event::{Event, Record};

/// The place of a refused attach.
const ATTACH_PLACE: usize = 0;

/// Attaches a device, if nothing refuses that, and works the records.
fn attach<D: Device + Drop>(
    report: &mut Report<'_>,
    number: u16,
    device: D,
    first: Record<'_>,
) -> Result<(), AllocError>
    requires { Proper (layout.item first.event) }
    ensures { OnOk result (string_bytes report.new.text ≡ string_bytes report.old.text ++ lines.written (runs.told_of report.old.reader.ending (Some (record { number = number; table = D.StateTable.table device; status = D.Device.status device; next = (first.entry.offset, layout.item first.entry.event); others = report.old.reader.records })))) }
{
    match Run::attach(number, device) {
        Ok(mut run) => {
            let followed = run.follow(report, first);
            run.end();
            followed
        }
        Err(why) => push_stop(&mut report.text, ATTACH_PLACE, why.number()),
    }
}

/// Attaches a device once there is a record to work.
fn face<D: Device + Drop>(report: &mut Report<'_>, number: u16, device: D) -> Result<(), AllocError>
    ensures { OnOk result (string_bytes report.new.text ≡ string_bytes report.old.text ++ lines.written (runs.told_of report.old.reader.ending (runs.facing number (D.StateTable.table device) (D.Device.status device) report.old.reader.records))) }
{
    // Number and device are a manager only once a record is there to work. Where there is none, the rules still speak of
    // what stands in the trace, so the clause names the table and the status and no manager.
    match report.next_or_stop()? {
        Some(first) => attach(report, number, device, first),
        None => Ok(()),
    }
}

/// A table device of the rows of a record.
fn device_of(number: u16, rows: &[u8]) -> TableDevice<'_>
    requires { Proper (layout.table number rows.now) }
    ensures { tables.basic result ≡ record { number = number; rows = rows.now; state = 0; held = 0; code = 0 } }
{
    match TableDevice::new(number, rows) {
        Ok(device) => device,
        Err(_) => unreachable(),
    }
}

/// Goes on behind a table: with a limit over its device, or without one.
fn behind_table(report: &mut Report<'_>, number: u16, rows: &[u8]) -> Result<(), AllocError>
    requires { Proper (layout.table number rows.now) }
    ensures { OnOk result (string_bytes report.new.text ≡ string_bytes report.old.text ++ lines.written (runs.told_of report.old.reader.ending (runs.tabled number rows.now report.old.reader.records))) }
{
    let device = device_of(number, rows);
    match report.next_or_stop()? {
        Some(
            Record {
                event: Event::Limit { latency },
                ..
            },
        ) => face(report, number, LatencyLimit::new(device, latency)),
        Some(second) => attach(report, number, device, second),
        None => Ok(()),
    }
}

/// Works a trace from its first record on, which is a table.
pub(crate) fn work_trace(report: &mut Report<'_>) -> Result<(), AllocError>
    requires { runs.Starts report.old.reader.records }
    ensures { OnOk result (string_bytes report.new.text ≡ string_bytes report.old.text ++ lines.written (runs.lines_for report.old.reader)) }
{
    match report.next_or_stop()? {
        Some(first) => match first.event {
            Event::Table { number, rows } => behind_table(report, number, rows),
            _ => unreachable(),
        },
        None => Ok(()),
    }
}
