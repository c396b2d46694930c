//! The calls that change a manager. None of them asks anything of its caller.
ghost use Rattle.std.specs.Prelude.{◌≡◌, ◌<◌, true, is_ok, IfOk};
ghost use Rattle.std.specs.Result.{result_err};
ghost use Rattle.states.specs.Table.{at, rows_of};
ghost use Rattle.devices.specs.Meaning.{told_reply, reply, wake_refusal};
ghost use Rattle.manager.specs.Rules.{tick, request, release, report, attach_refusal, started, done, busy_tick, idle_tick, stuck_tick, roused, waking};
ghost use Rattle.manager.specs.Meaning.{meaning, told_ticked, told_closed, told_released, HandsBack, told_reported, Waits, KeepsLease};
ghost use Rattle.manager.specs.Told.{jammed_by, told_unattached};
ghost use Rattle.manager.specs.declared.manager.Standing.TheVariants.{Idle};

use super::{ClosedGap, HandedBack, Manager, Standing, Ticked};
use crate::books::Books;
use crate::lease::Lease;
use crate::refusal::{Refusal, Unattached};
use devices::{Device, Fault};
use states::FitRows;

/// The most ticks that are accepted.
const MAX_TICKS: u32 = 1_000_000;

/// The most gaps that are closed.
const MAX_GAPS: u32 = 1_000_000;

impl<D: Device> Manager<D> {
    /// Takes a device on, or turns it away. Turned away, the manager keeps the device as it was, refuses every call but
    /// `figures` with the same number, and its account stays empty.
    pub fn attach(number: u16, device: D) -> Manager<D>
        ensures { meaning D.Device result ≡ started number (D.StateTable.table device) (D.Device.status device) }
    {
        let standing = match rows_to_attach(&device) {
            Ok(rows) => Standing::Idle(rows),
            Err(why) => Standing::Shut(why),
        };
        Manager {
            number,
            device,
            standing,
            books: Books::new(),
        }
    }

    /// One tick. Busy, it holds state 0. Idle, it holds the envelope state at the gap's length plus one, or the present
    /// state where a fault holds that move up.
    pub fn tick(&mut self) -> Result<Ticked, Refusal>
        ensures value { told_ticked result ≡ (done (meaning D.Device self.old) tick).answer }
        ensures after { meaning D.Device self.new ≡ (done (meaning D.Device self.old) tick).after }
        ensures keeps { KeepsLease (meaning D.Device self.old) (meaning D.Device self.new) }
    {
        let before = self.books.account();
        match &self.standing {
            Standing::Shut(why) => Err(Refusal::Attach(*why)),
            // Twice, since with one guard over both arms the proof did not close.
            Standing::Idle(_) if before.ticks >= MAX_TICKS => Err(Refusal::TickLimit),
            Standing::Busy(_) if before.ticks >= MAX_TICKS => Err(Refusal::TickLimit),
            Standing::Idle(rows) => {
                let (state, _) = rows.envelope(before.length + 1);
                self.idle_tick(state)
            }
            Standing::Busy(_) => self.busy_tick(),
        }
    }

    // Room for a tick is asked for in the three below, as in the books: after the last tick there is none.

    /// Holds state 0 and charges it to the busy time.
    fn busy_tick(&mut self) -> Result<Ticked, Refusal>
        requires { self.old.books.account.ticks < 1000000 }
        ensures value { told_ticked result ≡ (busy_tick (meaning D.Device self.old)).answer }
        ensures after { meaning D.Device self.new ≡ (busy_tick (meaning D.Device self.old)).after }
    {
        let energy = self.device.hold(0)?;
        self.books.busy_tick(energy);
        Ok(Ticked {
            state: 0,
            energy,
            fault: None,
        })
    }

    /// Holds a state and charges it to the open gap.
    fn idle_tick(&mut self, state: u8) -> Result<Ticked, Refusal>
        requires { self.old.books.account.ticks < 1000000 }
        ensures value { told_ticked result ≡ (idle_tick (meaning D.Device self.old) state).answer }
        ensures after { meaning D.Device self.new ≡ (idle_tick (meaning D.Device self.old) state).after }
    {
        match self.device.hold(state) {
            Ok(energy) => {
                self.books.open_tick(state, energy, false);
                Ok(Ticked {
                    state,
                    energy,
                    fault: None,
                })
            }
            Err(devices::Refusal::Jammed(fault)) => self.stuck_tick(fault),
            Err(why) => Err(why.into()),
        }
    }

    /// Holds the present state and marks the gap, since a fault holds the move up.
    fn stuck_tick(&mut self, fault: Fault) -> Result<Ticked, Refusal>
        requires { self.old.books.account.ticks < 1000000 }
        ensures value { told_ticked result ≡ (stuck_tick (meaning D.Device self.old) (jammed_by 43 fault)).answer }
        ensures after { meaning D.Device self.new ≡ (stuck_tick (meaning D.Device self.old) (jammed_by 43 fault)).after }
    {
        let state = self.device.state();
        let energy = self.device.hold(state)?;
        self.books.open_tick(state, energy, true);
        Ok(Ticked {
            state,
            energy,
            fault: Some(fault),
        })
    }

    /// Wakes the device and closes the gap. Answers a lease and the gap.
    pub fn request(&mut self) -> Result<(Lease, ClosedGap), Refusal>
        ensures value { told_closed result ≡ (done (meaning D.Device self.old) request).answer }
        ensures after { meaning D.Device self.new ≡ (done (meaning D.Device self.old) request).after }
        ensures waits { IfOk result (λ x. Waits (meaning D.Device self.new) x.0.manager x.0.count) }
    {
        match self.standing {
            Standing::Shut(why) => Err(Refusal::Attach(why)),
            Standing::Busy(_) => Err(Refusal::Busy),
            Standing::Idle(_) if self.books.account().gaps >= MAX_GAPS => Err(Refusal::GapLimit),
            Standing::Idle(rows) => self.close(rows),
        }
    }

    /// Wakes the device and closes the gap; a fault that holds the wake-up up marks the gap.
    fn close(&mut self, rows: FitRows) -> Result<(Lease, ClosedGap), Refusal>
        requires few_gaps { self.old.books.account.gaps < 1000000 }
        requires is_idle { self.old.standing ≡ Idle rows }
        ensures value { told_closed result ≡ (waking (meaning D.Device self.old) (wake_refusal (D.Device.status self.old.device))).answer }
        ensures after { meaning D.Device self.new ≡ (waking (meaning D.Device self.old) (wake_refusal (D.Device.status self.old.device))).after }
    {
        let from = self.device.state();
        let latency = self.device.latency(from);
        let before = self.books.account();
        let wake = self.rouse()?;
        let floor = rows.floor(before.length);
        let energy = self.books.close(from, wake, floor);
        self.standing = Standing::Busy(rows);
        let lease = Lease::new(self.number, before.gaps + 1);
        let gap = ClosedGap {
            length: before.length,
            energy,
            floor,
            stuck: before.mark,
            from,
            latency,
        };
        Ok((lease, gap))
    }

    /// Wakes the device; a fault that holds the wake-up up marks the gap.
    fn rouse(&mut self) -> Result<u32, devices::Refusal>
        ensures value { told_reply result ≡ reply (wake_refusal (D.Device.status self.old.device)) (at (D.StateTable.table self.old.device) (D.Device.status self.old.device).state).wake }
        ensures after { meaning D.Device self.new ≡ roused (meaning D.Device self.old) (wake_refusal (D.Device.status self.old.device)) }
    {
        let woken = self.device.wake();
        if let Err(devices::Refusal::Jammed(_)) = woken {
            self.books.mark();
        }
        woken
    }

    /// Takes the lease back and starts a gap. Refused, it hands the lease back.
    pub fn release(&mut self, lease: Lease) -> Result<(), HandedBack>
        ensures value { told_released result ≡ (done (meaning D.Device self.old) (release lease.manager lease.count)).answer }
        ensures back { HandsBack lease result }
        ensures after { meaning D.Device self.new ≡ (done (meaning D.Device self.old) (release lease.manager lease.count)).after }
        ensures taken { Waits (meaning D.Device self.old) lease.manager lease.count → is_ok result ≡ true }
    {
        match self.standing {
            Standing::Shut(why) => Err(HandedBack {
                lease,
                why: Refusal::Attach(why),
            }),
            Standing::Busy(rows) if lease.bears(self.number, self.books.account().gaps) => {
                lease.spend();
                self.standing = Standing::Idle(rows);
                Ok(())
            }
            _ => Err(HandedBack {
                lease,
                why: Refusal::NotThisLease,
            }),
        }
    }

    /// Passes a fault code to the parts of the device that bear the number.
    pub fn report(&mut self, number: u16, code: u32) -> Result<(), Refusal>
        ensures value { told_reported result ≡ (done (meaning D.Device self.old) (report number code)).answer }
        ensures after { meaning D.Device self.new ≡ (done (meaning D.Device self.old) (report number code)).after }
        ensures keeps { KeepsLease (meaning D.Device self.old) (meaning D.Device self.new) }
    {
        if let Standing::Shut(why) = self.standing {
            return Err(Refusal::Attach(why));
        }
        if self.device.report(number, code) {
            Ok(())
        } else {
            Err(Refusal::NoSuchPart)
        }
    }
}

/// The rows of a device that can be taken on, or why it cannot.
fn rows_to_attach<D: Device>(device: &D) -> Result<FitRows, Unattached>
    ensures refusal { told_unattached (result_err result) ≡ attach_refusal (D.StateTable.table device.now) (D.Device.status device.now) }
    ensures value { IfOk result (λ f. f.rows ≡ rows_of (D.StateTable.table device.now)) }
{
    if !device.settled() || device.state() != 0 {
        return Err(Unattached::NotAwake);
    }
    Ok(FitRows::gather(device)?)
}
