//! A manager at work on the records of a trace.
ghost use Rattle.std.specs.Prelude.{◌≡◌, true};
ghost use Rattle.replay.specs.Leased.{is_leased};

use crate::lines::{push_device, push_end, push_said, push_stop, push_total};
use crate::reported::Report;
use crate::said::{Halt, Said};
use devices::Device;
use manager::{Lease, Manager, Refusal, Unattached};
use std::alloc::AllocError;
use traces::event::{Event, Record};

/// A manager, and the lease that is out.
pub struct Run<D> {
    manager: Manager<D>,
    lease: Option<Lease>,
    ghost leased: { is_leased manager lease ≡ true },
}

impl<D: Device + Drop> Run<D> {
    ghost use Rattle.std.specs.Prelude.{◌≡◌, ◌<◌, true, [], ◌∷◌, ◌++◌, length, IfOk, if◌then◌else◌, string_bytes, MatchResult, OnOk, ◌≢◌};
    ghost use Rattle.std.specs.Result.{result_err};
    ghost use Rattle.manager.specs.Rules.{attach_refusal, started};
    ghost use Rattle.manager.specs.Told.{told_unattached};
    ghost use Rattle.traces.specs.Layout as layout;
    ghost use Rattle.traces.specs.Reading.{whole};
    ghost use Rattle.traces.specs.Written.{Proper};
    ghost use Rattle.replay.specs.Lines as lines;
    ghost use Rattle.replay.specs.Runs as runs;
    ghost use Rattle.replay.specs.Shown.{told, stands};
    ghost use Rattle.replay.specs.declared.said.Halt.TheVariants.{OtherNumber};

    /// Takes on a device, unless attach refuses it.
    pub(crate) fn attach(number: u16, device: D) -> Result<Run<D>, Unattached>
        ensures refusal { told_unattached (result_err result) ≡ attach_refusal (D.StateTable.table device) (D.Device.status device) }
        ensures value { IfOk result (λ run. stands D.Device run ≡ started number (D.StateTable.table device) (D.Device.status device)) }
    {
        let manager = Manager::attach(number, device);
        match manager.refusal() {
            Some(why) => Err(why),
            None => Ok(Run {
                manager,
                lease: None,
            }),
        }
    }

    /// Refuses another number than the device's.
    fn owns(&self, number: u16) -> Result<(), Halt>
        ensures { MatchResult result (λ _. number ≡ (stands D.Device self.now).number) (λ why. (number ≢ (stands D.Device self.now).number) × (why ≡ OtherNumber)) }
    {
        if number == self.manager.number() {
            Ok(())
        } else {
            Err(Halt::OtherNumber)
        }
    }

    /// Ticks, until one is refused.
    fn ticks(&mut self, count: u32) -> Result<Said<'static>, Halt>
        ensures value { told result ≡ runs.says (stands D.Device self.old) (layout.ticks count) }
        ensures after { stands D.Device self.new ≡ runs.leaves (stands D.Device self.old) (layout.ticks count) }
    {
        for _ in 0..count {
            self.manager.tick()?;
        }
        Ok(Said::Quiet)
    }

    /// A request. A fault that holds it up is told, and the run goes on.
    fn request<'a>(&mut self, number: u16, note: &'a [u8]) -> Result<Said<'a>, Halt>
        ensures value { told result ≡ runs.says (stands D.Device self.old) (layout.request number note.now) }
        ensures after { stands D.Device self.new ≡ runs.leaves (stands D.Device self.old) (layout.request number note.now) }
    {
        self.owns(number)?;
        match self.manager.request() {
            Ok((lease, gap)) => match self.lease.replace(lease) {
                None => Ok(Said::Gap(gap, note)),
                Some(_other) => unreachable(),
            },
            Err(Refusal::Jammed(fault)) => Ok(Said::Jam(fault)),
            Err(why) => Err(why.into()),
        }
    }

    /// Gives the lease back.
    fn release(&mut self, number: u16) -> Result<Said<'static>, Halt>
        ensures value { told result ≡ runs.says (stands D.Device self.old) (layout.release number) }
        ensures after { stands D.Device self.new ≡ runs.leaves (stands D.Device self.old) (layout.release number) }
    {
        self.owns(number)?;
        match self.lease.take() {
            None => Err(Halt::NoLease),
            Some(lease) => match self.manager.release(lease) {
                Ok(()) => Ok(Said::Quiet),
                Err(_back) => unreachable(),
            },
        }
    }

    /// Passes a fault code on.
    fn report(&mut self, number: u16, code: u32) -> Result<Said<'static>, Halt>
        ensures value { told result ≡ runs.says (stands D.Device self.old) (layout.report number code) }
        ensures after { stands D.Device self.new ≡ runs.leaves (stands D.Device self.old) (layout.report number code) }
    {
        self.manager.report(number, code)?;
        Ok(Said::Quiet)
    }

    /// Works one record.
    fn work<'a>(&mut self, event: Event<'a>) -> Result<Said<'a>, Halt>
        ensures value { told result ≡ runs.says (stands D.Device self.old) (layout.item event.entry) }
        ensures after { stands D.Device self.new ≡ runs.leaves (stands D.Device self.old) (layout.item event.entry) }
    {
        // Events are read from a trace, so they are data and no closures.
        match event {
            Event::Ticks { count } => self.ticks(count),
            Event::Request { number, note } => self.request(number, note),
            Event::Release { number } => self.release(number),
            Event::Report { number, code } => self.report(number, code),
            Event::Table { .. } | Event::Limit { .. } | Event::End => Ok(Said::Quiet),
        }
    }

    /// Works one record and writes what it says. Answers whether the run goes on: a flag, which a `while` asks.
    fn step(&mut self, out: &mut String, next: Record<'_>) -> Result<bool, AllocError>
        requires { Proper (layout.item next.event) }
        ensures goes { IfOk result (λ on. on ≡ runs.goes_on (runs.says (stands D.Device self.old) (layout.item next.entry.event))) }
        ensures value { OnOk result (string_bytes out.new ≡ string_bytes out.old ++ lines.written (runs.lines_of next.entry.offset (runs.says (stands D.Device self.old) (layout.item next.entry.event)))) }
        ensures after { stands D.Device self.new ≡ runs.leaves (stands D.Device self.old) (layout.item next.entry.event) }
    {
        // `Proper` is asked for and is no invariant of a record: the fields are public, and whoever makes one would owe it.
        let place = next.offset;
        match self.work(next.event) {
            Ok(said) => {
                push_said(out, place, said)?;
                Ok(true)
            }
            Err(halt) => {
                push_stop(out, place, halt.number())?;
                Ok(false)
            }
        }
    }

    /// Writes the account and the end.
    fn close(&self, out: &mut String) -> Result<(), AllocError>
        ensures { OnOk result (string_bytes out.new ≡ string_bytes out.old ++ lines.written (runs.closing (stands D.Device self.now) whole)) }
    {
        let account = self.manager.figures();
        push_total(out, &account)?;
        push_end(out)
    }

    /// Reads and works the next record, or writes how the run ends. Answers whether it goes on, as `step` does.
    fn advance(&mut self, report: &mut Report<'_>) -> Result<bool, AllocError>
        ensures moves { IfOk result (λ on. on ≡ true → length report.new.reader.records < length report.old.reader.records) }
        ensures value { IfOk result (λ on. string_bytes report.new.text ++ (if on then lines.written (runs.run_on (stands D.Device self.new) report.new.reader) else []) ≡ string_bytes report.old.text ++ lines.written (runs.run_on (stands D.Device self.old) report.old.reader)) }
    {
        match report.reader.next() {
            Ok(Some(next)) => self.step(&mut report.text, next),
            Ok(None) => {
                self.close(&mut report.text)?;
                Ok(false)
            }
            Err(refusal) => {
                push_stop(&mut report.text, refusal.place, refusal.fault.number())?;
                Ok(false)
            }
        }
    }

    /// Writes the line of the device, and works a record and all that follow it.
    pub(crate) fn follow(
        &mut self,
        report: &mut Report<'_>,
        first: Record<'_>,
    ) -> Result<(), AllocError>
        requires { Proper (layout.item first.event) }
        ensures { OnOk result (string_bytes report.new.text ≡ string_bytes report.old.text ++ lines.written (lines.device (stands D.Device self.old).number ∷ runs.run (stands D.Device self.old) ((first.entry.offset, layout.item first.entry.event) ∷ report.old.reader.records) report.old.reader.ending)) }
    {
        push_device(&mut report.text, self.manager.number())?;
        if self.step(&mut report.text, first)? {
            while self.advance(report)? {}
        }
        Ok(())
    }

    /// Gives back a lease that is still out.
    pub(crate) fn end(self) {
        let Run { mut manager, lease } = self;
        if let Some(lease) = lease {
            match manager.release(lease) {
                Ok(()) => {}
                Err(_back) => unreachable(),
            }
        }
    }
}
