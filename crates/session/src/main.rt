//! Works a modem through one session after another, and prints each answer and the figures: idle ticks, a wake-up,
//! busy ticks, a release, a fault that holds a move up and then a wake-up, and a refused attach.
#![tactic(auto)]

ghost use Rattle.std.specs.Prelude.{◌≡◌};
ghost use Rattle.manager.specs.Rules.{release, done};
ghost use Rattle.manager.specs.Meaning.{meaning, Waits, KeepsLease};

use devices::{Device, TableDevice};
use manager::{Account, ClosedGap, Lease, Manager, Refusal, Ticked};
use samples::{Figures, MODEM};
use std::io;

/// The number of the modem and of its manager.
const NUMBER: u16 = 7;

/// How many states the modem has.
const STATES: usize = 3;

/// Prints a refusal, with the fault that it names.
fn show_refusal(rt: &HostRuntime, refusal: Refusal) -> io::Result<()> {
    let number = refusal.number();
    match refusal {
        Refusal::Jammed(fault) => println!(rt; "refused {number}: fault {fault}"),
        _ => println!(rt; "refused {number}"),
    }
}

/// Prints what a tick held.
fn show_tick(rt: &HostRuntime, answer: Result<Ticked, Refusal>) -> io::Result<()> {
    match answer {
        Ok(
            Ticked {
                state,
                energy,
                fault: Some(fault),
            },
        ) => println!(rt; "tick {state} {energy} fault {fault}"),
        Ok(Ticked { state, energy, .. }) => println!(rt; "tick {state} {energy}"),
        Err(refusal) => show_refusal(rt, refusal),
    }
}

/// Prints the gap that a request closed.
fn show_gap(rt: &HostRuntime, gap: ClosedGap) -> io::Result<()> {
    let ClosedGap {
        length,
        energy,
        floor,
        stuck,
        from,
        latency,
    } = gap;
    println!(rt;
        "gap {length} energy {energy} floor {floor} stuck {stuck} from {from} latency {latency}"
    )
}

/// Prints the account.
fn show_figures(rt: &HostRuntime, account: Account) -> io::Result<()> {
    let Figures {
        clean,
        floor,
        stuck,
        busy,
        pending,
        length,
        ticks,
        gaps,
        states,
        ..
    } = Figures::from(account);
    print!(rt; "clean {clean} floor {floor} stuck {stuck} busy {busy} ")?;
    println!(rt; "open {pending} length {length} ticks {ticks} gaps {gaps}")?;
    for (state, figures) in states.iter().take(STATES).enumerate() {
        let ticks = figures.ticks;
        let wakes = figures.wakes;
        println!(rt; "state {state} ticks {ticks} wakes {wakes}")?;
    }
    Ok(())
}

/// Gives back the lease that the manager waits for.
fn give_back<D: Device>(modem: &mut Manager<D>, lease: Lease)
    requires { Waits (meaning D.Device modem.old) lease.manager lease.count }
    ensures { meaning D.Device modem.new ≡ (done (meaning D.Device modem.old) (release lease.manager lease.count)).after }
{
    match modem.release(lease) {
        Ok(()) => {}
        Err(_) => unreachable(),
    }
}

/// Lets a modem work for some ticks. A lease that is out stays out.
fn work<D: Device>(modem: &mut Manager<D>, ticks: u32) -> Result<(), Refusal>
    ensures { KeepsLease (meaning D.Device modem.old) (meaning D.Device modem.new) }
{
    for _ in 0..ticks {
        modem.tick()?;
    }
    Ok(())
}

/// One session: wakes the modem, lets it work, and gives the lease back on each way out.
fn serve<D: Device>(modem: &mut Manager<D>, ticks: u32) -> Result<ClosedGap, Refusal> {
    let (lease, gap) = modem.request()?;
    if let Err(refusal) = work(modem, ticks) {
        give_back(modem, lease);
        return Err(refusal);
    }
    give_back(modem, lease);
    Ok(gap)
}

/// Two sessions of no ticks, each with a lease of its own.
fn serve_twice<D: Device>(modem: &mut Manager<D>) -> Result<(), Refusal> {
    let (first, _) = modem.request()?;
    give_back(modem, first);
    let (second, _) = modem.request()?;
    give_back(modem, second);
    Ok(())
}

/// Prints what a session answers.
fn show_session(rt: &HostRuntime, answer: Result<ClosedGap, Refusal>) -> io::Result<()> {
    match answer {
        Ok(gap) => show_gap(rt, gap),
        Err(refusal) => show_refusal(rt, refusal),
    }
}

/// Some ticks, each printed.
fn show_ticks(rt: &HostRuntime, modem: &mut Manager<TableDevice>, ticks: u32) -> io::Result<()> {
    for _ in 0..ticks {
        show_tick(rt, modem.tick())?;
    }
    Ok(())
}

/// A code for a part, and whether there was one.
fn show_report(
    rt: &HostRuntime,
    modem: &mut Manager<TableDevice>,
    part: u16,
    code: u32,
) -> io::Result<()> {
    match modem.report(part, code) {
        Ok(()) => println!(rt; "reported {part} {code}"),
        Err(refusal) => show_refusal(rt, refusal),
    }
}

/// Clean gaps, a stuck one, and wake-ups that a fault holds up.
fn show_day(rt: &HostRuntime, modem: &mut Manager<TableDevice>) -> io::Result<()> {
    show_ticks(rt, modem, 12)?;
    show_session(rt, serve(modem, 3))?;
    show_ticks(rt, modem, 3)?;
    show_report(rt, modem, NUMBER, 9)?;
    show_ticks(rt, modem, 1)?;
    show_report(rt, modem, NUMBER, 0)?;
    show_ticks(rt, modem, 1)?;
    show_report(rt, modem, NUMBER, 5)?;
    show_session(rt, serve(modem, 1))?;
    show_report(rt, modem, 8, 5)?;
    show_report(rt, modem, NUMBER, 0)?;
    show_session(rt, serve(modem, 1))?;
    if let Err(refusal) = serve_twice(modem) {
        show_refusal(rt, refusal)?;
    }
    show_ticks(rt, modem, 2)?;
    show_figures(rt, modem.figures())
}

fn main(rt: HostRuntime) -> io::Result<()> {
    if let Ok(device) = TableDevice::new(NUMBER, MODEM) {
        let mut modem = Manager::attach(NUMBER, device);
        show_day(&rt, &mut modem)?;
    }
    if let Ok(device) = TableDevice::new(NUMBER, &MODEM[0..12]) {
        let mut shut = Manager::attach(NUMBER, device);
        show_tick(&rt, shut.tick())?;
        show_figures(&rt, shut.figures())?;
    }
    Ok(())
}
