//! A second opinion: a naive implementation of tables, piles of devices and the manager, written without the library's
//! code, beside the library on many pseudo-random tables, piles and lists of calls. Both work each list and each of its
//! beginnings, and all figures are compared.
#![tactic(auto)]

mod cases;
mod plain;

use cases::{Pile, Shape};
use devices::{Device, Joined, LatencyLimit, TableDevice};
use manager::{Step, account_after};
use plain::{ClosedGaps, PARTS, Plain};
use samples::{Figures, MODEM, PART, Random, STUCK_GAP, receiver_gap};
use std::alloc::{AllocError, Global};
use std::io;

/// How many lists of calls are tried.
const LISTS: u32 = 20_000;

/// The number of the manager.
const MANAGER: u16 = 3;

/// The library's figures of a device after a list of calls.
fn library<D: Device + Drop>(device: D, steps: &[Step]) -> Figures {
    Figures::from(account_after(MANAGER, device, steps))
}

/// The library's figures of a pile of this shape, if its rows make devices.
fn library_figures(shape: &Shape, steps: &[Step]) -> Option<Figures> {
    let [first, second] = PARTS;
    let first = TableDevice::new(first, shape.first.as_slice()).ok()?;
    let second = TableDevice::new(second, shape.second.as_slice()).ok()?;
    let limit = shape.limit;
    // Each pile is another type, and shapes are drawn as data: the place where one becomes the other.
    Some(match shape.pile {
        Pile::Table => library(first, steps),
        Pile::Limit => library(LatencyLimit::new(first, limit), steps),
        Pile::Pair => library(Joined::new(first, second, shape.rail), steps),
        Pile::LimitOnPair => {
            let pair = Joined::new(first, second, shape.rail);
            library(LatencyLimit::new(pair, limit), steps)
        }
        Pile::PairOfLimit => {
            let quick = LatencyLimit::new(first, limit);
            library(Joined::new(quick, second, shape.rail), steps)
        }
    })
}

/// What was tried: accounts compared and how many differ, tables refused, clean and stuck gaps closed.
#[derive(Clone, Copy, Debug, Default, PartialEq, Eq)]
struct Tried {
    compared: u32,
    differ: u32,
    refused: u32,
    clean: usize,
    stuck: usize,
}

/// Compares all beginnings of one list of calls.
fn compare(heap: Global, random: &mut Random, tried: &mut Tried) -> Result<(), AllocError> {
    let shape = Shape::any(heap, random)?;
    let steps = cases::steps(heap, random)?;
    let mut plain = Plain::attach(heap, MANAGER, &shape)?;
    if plain.is_shut() {
        tried.refused = tried.refused.saturating_add(1);
    }
    for (i, step) in steps.iter().enumerate() {
        plain.take(*step)?;
        if let Some(figures) = library_figures(&shape, &steps.as_slice()[..=i]) {
            tried.compared = tried.compared.saturating_add(1);
            if figures != plain.figures() {
                tried.differ = tried.differ.saturating_add(1);
            }
        }
    }
    let ClosedGaps { clean, stuck } = plain.closed_gaps();
    tried.clean = tried.clean.saturating_add(clean);
    tried.stuck = tried.stuck.saturating_add(stuck);
    Ok(())
}

/// A stuck gap of five ticks: it draws 64, and its floor is not counted.
fn show_stuck(rt: &HostRuntime) -> io::Result<()> {
    if let Ok(modem) = TableDevice::new(PART, MODEM) {
        let account = account_after(MANAGER, modem, STUCK_GAP);
        let stuck = account.stuck;
        let floor = account.floor;
        println!(rt; "a stuck gap: energy {stuck}, floor counted {floor}")?;
    }
    Ok(())
}

/// Powers 1 and 0, wake energies 0 and 5, a gap of 7: choosing each tick's state by the costs at the tick before, which
/// is a mistake, draws more than twice the floor of 5.
fn show_mistake(rt: &HostRuntime) -> io::Result<()> {
    let right = receiver_gap(7, 0);
    let wrong = receiver_gap(7, 1);
    println!(rt; "a gap of 7: {right}, by the costs at the tick before {wrong}, twice the floor 10")
}

fn main(rt: HostRuntime) -> io::Result<()> {
    let heap = rt.alloc();
    let mut random = Random::new(20_261_117);
    let mut tried = Tried::default();
    for _ in 0..LISTS {
        compare(heap, &mut random, &mut tried)?;
    }
    let Tried {
        compared,
        differ,
        refused,
        clean,
        stuck,
    } = tried;
    println!(rt; "{LISTS} lists of calls, {refused} with a refused attach")?;
    println!(rt; "{clean} clean gaps and {stuck} stuck ones closed")?;
    show_stuck(&rt)?;
    show_mistake(&rt)?;
    println!(rt; "{compared} accounts compared, {differ} differ")
}
