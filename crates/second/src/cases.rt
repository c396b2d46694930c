//! Pseudo-random piles of devices and lists of calls.
use devices::Rail;
use manager::Step;
use samples::Random;
use states::Row;
use std::alloc::{AllocError, Global};

/// Which devices are piled.
#[derive(Clone, Copy, Debug, PartialEq, Eq)]
pub enum Pile {
    /// A table device.
    Table,
    /// A limit over a table device.
    Limit,
    /// Two table devices behind a rail.
    Pair,
    /// A limit over two table devices behind a rail.
    LimitOnPair,
    /// A limit over a table device, and another table device, behind a rail.
    PairOfLimit,
}

/// A pile: which devices, over which rows.
#[derive(Debug, Drop)]
pub struct Shape {
    pub pile: Pile,
    pub first: Vec<u8>,
    pub second: Vec<u8>,
    pub limit: u32,
    pub rail: Rail,
}

/// Adds the bytes of a row, rarely with a number that makes the table unfit.
fn push_row(bytes: &mut Vec<u8>, row: Row, random: &mut Random) -> Result<(), AllocError> {
    let power = if random.wide_below(200) == 0 {
        1_000_001
    } else {
        row.power
    };
    let wake = if random.wide_below(200) == 0 {
        0
    } else {
        row.wake
    };
    bytes.extend_from_slice(&power.to_le_bytes())?;
    bytes.extend_from_slice(&wake.to_le_bytes())?;
    bytes.extend_from_slice(&row.latency.to_le_bytes())
}

/// The row of a state one deeper, which mostly makes costs level.
fn deeper(row: Row, random: &mut Random) -> Row {
    let fall = random.wide_below(4).wrapping_add(1);
    let rise = random.wide_below(20).wrapping_add(1);
    Row {
        power: row.power.wrapping_sub(fall),
        wake: row.wake.wrapping_add(rise),
        latency: row.latency.wrapping_add(random.wide_below(4)),
    }
}

/// The rows of a table that is mostly fit, with level costs likely.
fn rows(heap: Global, random: &mut Random) -> Result<Vec<u8>, AllocError> {
    // Whatever allocates takes a handle of the heap, so it goes beside the generator down to here.
    let mut bytes = Vec::new(heap);
    let count = random.wide_below(6).wrapping_add(1);
    let mut row = Row {
        power: random.wide_below(5).wrapping_add(count.wrapping_mul(5)),
        wake: 0,
        latency: 0,
    };
    push_row(&mut bytes, row, random)?;
    for _ in 1..count {
        row = deeper(row, random);
        push_row(&mut bytes, row, random)?;
    }
    Ok(bytes)
}

impl Pile {
    /// Any of the five.
    fn any(random: &mut Random) -> Pile {
        match random.wide_below(5) {
            0 => Pile::Table,
            1 => Pile::Limit,
            2 => Pile::Pair,
            3 => Pile::LimitOnPair,
            _ => Pile::PairOfLimit,
        }
    }

    /// Whether there are two table devices.
    pub(crate) fn is_pair(self) -> bool {
        match self {
            Pile::Table | Pile::Limit => false,
            Pile::Pair | Pile::LimitOnPair | Pile::PairOfLimit => true,
        }
    }
}

impl Shape {
    /// A pseudo-random pile.
    pub(crate) fn any(heap: Global, random: &mut Random) -> Result<Shape, AllocError> {
        Ok(Shape {
            pile: Pile::any(random),
            first: rows(heap, random)?,
            second: rows(heap, random)?,
            limit: random.wide_below(10),
            rail: Rail {
                power: random.wide_below(4),
                energy: random.wide_below(9),
            },
        })
    }
}

/// A call: mostly ticks, and now and then wrong numbers.
fn step(random: &mut Random) -> Step {
    match random.wide_below(20) {
        0 | 1 => Step::Request,
        2 | 3 => Step::Release {
            manager: if random.wide_below(10) == 0 { 4 } else { 3 },
            count: random.wide_below(5),
        },
        4 | 5 => Step::Report {
            number: random.wide_below(3) as u16 + 7,
            code: if random.wide_below(2) == 0 { 0 } else { 9 },
        },
        6 => Step::Figures,
        _ => Step::Tick,
    }
}

/// A list of calls.
pub(crate) fn steps(heap: Global, random: &mut Random) -> Result<Vec<Step>, AllocError> {
    let mut steps = Vec::new(heap);
    let count = random.wide_below(40);
    for _ in 0..count {
        steps.push(step(random))?;
    }
    Ok(steps)
}
