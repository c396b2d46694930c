//! Shows a pile of devices: two table devices, one under a latency limit, joined behind a rail and under a limit again.
//! Each answer is printed on a line of its own.
#![tactic(auto)]

use devices::{Device, Joined, LatencyLimit, Rail, Refusal, TableDevice};
use samples::{MODEM, RECEIVER};
use states::StateTable;
use std::io;

/// Prints what a table tells of each of its states.
fn show_table(rt: &HostRuntime, table: &impl StateTable) -> io::Result<()> {
    let deepest = table.deepest();
    println!(rt; "deepest {deepest}")?;
    for state in 0..=deepest {
        let power = table.power(state);
        let wake = table.wake_energy(state);
        let latency = table.latency(state);
        println!(rt; "state {state} power {power} wake {wake} latency {latency}")?;
    }
    Ok(())
}

/// Prints a refusal, with the fault that it names.
fn show_refusal(rt: &HostRuntime, refusal: Refusal) -> io::Result<()> {
    let number = refusal.number();
    match refusal {
        Refusal::Jammed(fault) => println!(rt; "refused {number} {fault}"),
        _ => println!(rt; "refused {number}"),
    }
}

/// Prints a command's answer.
fn show_answer(rt: &HostRuntime, answer: Result<u32, Refusal>) -> io::Result<()> {
    match answer {
        Ok(energy) => println!(rt; "energy {energy}"),
        Err(refusal) => show_refusal(rt, refusal),
    }
}

/// Holds, jams, clears and wakes a device, and prints each answer.
fn run(rt: &HostRuntime, device: &mut impl Device) -> io::Result<()> {
    show_answer(rt, device.hold(1))?;
    show_answer(rt, device.hold(0))?;
    show_answer(rt, device.hold(3))?;
    let found = device.report(8, 9);
    println!(rt; "report {found}")?;
    show_answer(rt, device.hold(2))?;
    show_answer(rt, device.hold(1))?;
    show_answer(rt, device.wake())?;
    let found = device.report(8, 0);
    println!(rt; "report {found}")?;
    show_answer(rt, device.hold(2))?;
    show_answer(rt, device.wake())?;
    let found = device.report(7, 3);
    println!(rt; "report {found}")?;
    show_answer(rt, device.hold(1))?;
    let found = device.report(9, 1);
    println!(rt; "report {found}")?;
    let held = device.held_count();
    println!(rt; "held {held}")
}

/// Piles limit, pair and limit over the two devices, and runs the pile.
fn show_pile(rt: &HostRuntime, modem: TableDevice, receiver: TableDevice) -> io::Result<()> {
    let rail = Rail {
        power: 2,
        energy: 5,
    };
    let pair = Joined::new(LatencyLimit::new(modem, 9), receiver, rail);
    let mut pile = LatencyLimit::new(pair, 10);
    show_table(rt, &pile)?;
    run(rt, &mut pile)?;
    show_table(rt, &LatencyLimit::new(pile, 8))
}

/// Shows that a device in a state that a limit hides is unsettled.
fn show_hidden(rt: &HostRuntime, mut modem: TableDevice) -> io::Result<()> {
    show_answer(rt, modem.hold(2))?;
    let mut limited = LatencyLimit::new(modem, 8);
    let settled = limited.settled();
    println!(rt; "settled {settled}")?;
    show_answer(rt, limited.hold(2))?;
    show_answer(rt, limited.wake())
}

fn main(rt: HostRuntime) -> io::Result<()> {
    if let (Ok(modem), Ok(receiver)) = (TableDevice::new(7, MODEM), TableDevice::new(8, RECEIVER)) {
        show_pile(&rt, modem, receiver)?;
    }
    if let Ok(modem) = TableDevice::new(7, MODEM) {
        show_hidden(&rt, modem)?;
    }
    if let Err(refusal) = TableDevice::new(7, &MODEM[0..13]) {
        let number = refusal.number();
        println!(rt; "refused {number}")?;
    }
    Ok(())
}
