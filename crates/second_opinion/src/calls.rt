//! Pseudo-random commands to devices and calls of managers.
use crate::naive::managed::Manager;
use manager::Step;
use samples::Random;

/// A command to a device.
#[derive(Clone, Copy, Debug, PartialEq, Eq)]
pub enum Command {
    Hold(u8),
    Wake,
    Report { number: u16, code: u32 },
}

/// A device number: 7, 8 or 9, which parts bear, and 10, which none does.
fn device_number(random: &mut Random) -> u16 {
    random.short(4).wrapping_add(7)
}

/// A fault code, often 0 for sound.
fn code(random: &mut Random) -> u32 {
    match random.below(6) {
        0 => 1,
        1 => u32::MAX,
        2 => random.word(),
        _ => 0,
    }
}

/// A state to hold: mostly the present one or one below it, sometimes any.
fn state(random: &mut Random, present: u8) -> u8 {
    match random.below(8) {
        0 => random.byte(),
        1 | 2 => random.below(17) as u8,
        3 | 4 => present,
        _ => present.saturating_add(random.below(3) as u8),
    }
}

/// A command to a device in a state.
pub(crate) fn any_command(random: &mut Random, present: u8) -> Command {
    match random.below(10) {
        0 | 1 => Command::Wake,
        2 | 3 => {
            let number = device_number(random);
            let code = code(random);
            Command::Report { number, code }
        }
        _ => Command::Hold(state(random, present)),
    }
}

/// A release: mostly with the right numbers, sometimes with one that is wrong.
fn release(random: &mut Random, manager: u16, count: u32) -> Step {
    match random.below(8) {
        0 => Step::Release {
            manager: manager.wrapping_add(1),
            count,
        },
        1 => Step::Release {
            manager,
            count: count.wrapping_add(1),
        },
        2 => Step::Release {
            manager,
            count: count.wrapping_sub(1),
        },
        _ => Step::Release { manager, count },
    }
}

/// A call of a manager with a number: mostly ticks, with requests and releases where they fit and where they do not.
pub(crate) fn any_call(random: &mut Random, manager: &Manager, number: u16) -> Step {
    match random.below(if manager.is_busy() { 12 } else { 24 }) {
        0 => Step::Request,
        1 | 2 | 3 => release(random, number, manager.gaps()),
        4 | 6 => {
            let number = device_number(random);
            let code = code(random);
            Step::Report { number, code }
        }
        5 => Step::Report { number: 7, code: 0 },
        12 | 13 => Step::Request,
        _ => Step::Tick,
    }
}
