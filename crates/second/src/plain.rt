//! The naive implementation: the rows of the whole pile are worked out once, least costs are found by trying every
//! state, a gap is the list of its ticks, and the figures are summed up from the closed gaps when they are asked for.
//! It is a second opinion: none of its rules is taken from the library, nor from the naive code of `second_opinion`.
use crate::cases::{Pile, Shape};
use devices::Rail;
use manager::Step;
use samples::Figures;
use std::alloc::{AllocError, Global};

/// The numbers of the two parts.
pub const PARTS: [u16; 2] = [7, 8];

/// Power, wake energy and latency of a state.
#[derive(Clone, Copy, Debug, Default, PartialEq, Eq)]
struct Level {
    power: u64,
    wake: u64,
    latency: u64,
}

/// A basic device of the pile.
#[derive(Clone, Copy, Debug, PartialEq, Eq)]
struct Part {
    number: u16,
    code: u32,
}

/// A closed gap.
#[derive(Clone, Copy, Debug, PartialEq, Eq)]
struct Gap {
    energy: u64,
    floor: u64,
    stuck: bool,
    from: usize,
}

/// How many gaps were closed.
#[derive(Clone, Copy, Debug, Default, PartialEq, Eq)]
pub struct ClosedGaps {
    pub clean: usize,
    pub stuck: usize,
}

/// What became of attach, and whether the manager is busy.
#[derive(Clone, Copy, Debug, PartialEq, Eq)]
enum Standing {
    /// The device was not taken on.
    Shut,
    Idle,
    Busy,
}

/// A manager over one pile.
#[derive(Debug, Drop)]
pub struct Plain {
    number: u16,
    levels: Vec<Level>,
    parts: Vec<Part>,
    standing: Standing,
    state: usize,
    gap: Vec<usize>,
    mark: bool,
    closed: Vec<Gap>,
    busy_ticks: Vec<usize>,
    idle_ticks: Vec<usize>,
}

/// The number in some bytes, the lowest first.
fn number_of(bytes: &[u8]) -> u64 {
    bytes.iter().rev().fold(0u64, |number, byte| {
        number.wrapping_mul(256).wrapping_add(u64::from(*byte))
    })
}

/// The level of a row of 12 bytes.
fn level_of(row: &[u8]) -> Level {
    let mut numbers = row.chunks_exact(4).map(number_of);
    Level {
        power: numbers.next().unwrap_or(0),
        wake: numbers.next().unwrap_or(0),
        latency: numbers.next().unwrap_or(0),
    }
}

/// The levels of one table.
fn levels_of(heap: Global, rows: &[u8]) -> Result<Vec<Level>, AllocError> {
    rows.chunks_exact(12).map(level_of).collect(heap)
}

/// A level; beyond the last that of the last.
fn level_at(levels: &[Level], state: usize) -> Level {
    levels
        .get(state)
        .or(levels.last())
        .copied()
        .unwrap_or_default()
}

/// The levels up to the first slow state.
fn limited(heap: Global, levels: &[Level], limit: u32) -> Result<Vec<Level>, AllocError> {
    levels
        .iter()
        .enumerate()
        .take_while(|(state, level)| *state == 0 || level.latency <= u64::from(limit))
        .map(|(_, level)| *level)
        .collect(heap)
}

/// Two tables behind a rail.
fn joined(
    heap: Global,
    first: &[Level],
    second: &[Level],
    rail: Rail,
) -> Result<Vec<Level>, AllocError> {
    let count = first.len().max(second.len());
    let most = u64::from(u32::MAX);
    (0..count)
        .map(|state| {
            let a = level_at(first, state);
            let b = level_at(second, state);
            let (power, wake) = if state.wrapping_add(1) == count {
                (0, u64::from(rail.energy))
            } else {
                (u64::from(rail.power), 0)
            };
            Level {
                power: a.power.wrapping_add(b.power).wrapping_add(power).min(most),
                wake: a.wake.wrapping_add(b.wake).wrapping_add(wake).min(most),
                latency: a.latency.max(b.latency),
            }
        })
        .collect(heap)
}

/// The levels of a pile.
fn pile_levels(heap: Global, shape: &Shape) -> Result<Vec<Level>, AllocError> {
    let first = levels_of(heap, shape.first.as_slice())?;
    let second = levels_of(heap, shape.second.as_slice())?;
    // Shapes are drawn as data, which the library and this code get, and no closures.
    match shape.pile {
        Pile::Table => Ok(first),
        Pile::Limit => limited(heap, first.as_slice(), shape.limit),
        Pile::Pair => joined(heap, first.as_slice(), second.as_slice(), shape.rail),
        Pile::LimitOnPair => {
            let both = joined(heap, first.as_slice(), second.as_slice(), shape.rail)?;
            limited(heap, both.as_slice(), shape.limit)
        }
        Pile::PairOfLimit => {
            let quick = limited(heap, first.as_slice(), shape.limit)?;
            joined(heap, quick.as_slice(), second.as_slice(), shape.rail)
        }
    }
}

impl Level {
    /// Whether each number is at most its maximum.
    fn is_within(&self) -> bool {
        self.power <= 1_000_000 && self.wake <= 1_000_000_000 && self.latency <= 100_000
    }

    /// Whether the level may stand right below another.
    fn is_below(&self, above: &Level) -> bool {
        self.power < above.power && self.wake > above.wake && self.latency >= above.latency
    }

    /// What so many ticks cost, with the wake-up.
    fn cost(&self, ticks: u64) -> u64 {
        self.wake.wrapping_add(self.power.wrapping_mul(ticks))
    }
}

/// Whether a table is fit, by trying every rule of every row.
fn is_fit(levels: &[Level]) -> bool {
    let awake = level_at(levels, 0);
    (2..=16).contains(&levels.len())
        && awake.wake == 0
        && awake.latency == 0
        && levels.iter().all(|level| level.is_within())
        && levels.windows(2).all(|pair| match pair {
            [above, below] => below.is_below(above),
            _ => true,
        })
}

impl Plain {
    /// Attaches a manager with a number to a pile.
    pub(crate) fn attach(heap: Global, number: u16, shape: &Shape) -> Result<Plain, AllocError> {
        let levels = pile_levels(heap, shape)?;
        let standing = if is_fit(levels.as_slice()) {
            Standing::Idle
        } else {
            Standing::Shut
        };
        let count = if shape.pile.is_pair() { 2 } else { 1 };
        let part = |number: &u16| Part {
            number: *number,
            code: 0,
        };
        Ok(Plain {
            number,
            levels,
            parts: PARTS.iter().take(count).map(part).collect(heap)?,
            standing,
            state: 0,
            gap: Vec::new(heap),
            mark: false,
            closed: Vec::new(heap),
            busy_ticks: Vec::new(heap),
            idle_ticks: Vec::new(heap),
        })
    }

    /// Whether attach was refused.
    pub(crate) fn is_shut(&self) -> bool {
        self.standing == Standing::Shut
    }

    /// How many clean and how many stuck gaps were closed.
    pub(crate) fn closed_gaps(&self) -> ClosedGaps {
        ClosedGaps {
            clean: self.closed.iter().filter(|gap| !gap.stuck).count(),
            stuck: self.closed.iter().filter(|gap| gap.stuck).count(),
        }
    }

    /// Whether some part is faulty.
    fn jammed(&self) -> bool {
        self.parts.iter().any(|part| part.code != 0)
    }

    /// A level; beyond the deepest that of the deepest.
    fn level(&self, state: usize) -> Level {
        level_at(self.levels.as_slice(), state)
    }

    /// The first state that no other state undercuts.
    fn best(&self, ticks: u64) -> usize {
        let undercut = |level: &Level| {
            self.levels
                .iter()
                .any(|other| other.cost(ticks) < level.cost(ticks))
        };
        self.levels
            .iter()
            .position(|level| !undercut(level))
            .unwrap_or(0)
    }

    /// The power of all the ticks of a list.
    fn drawn(&self, ticks: &[usize]) -> u64 {
        ticks
            .iter()
            .map(|state| self.level(*state).power)
            .fold(0u64, |sum, power| sum.wrapping_add(power))
    }

    /// Works a tick.
    fn tick(&mut self) -> Result<(), AllocError> {
        if self.standing == Standing::Busy {
            self.busy_ticks.push(0)?;
            return Ok(());
        }
        let wanted = self.best((self.gap.len() as u64).wrapping_add(1));
        if wanted != self.state && self.jammed() {
            self.mark = true;
        } else {
            self.state = wanted;
        }
        self.gap.push(self.state)?;
        self.idle_ticks.push(self.state)?;
        Ok(())
    }

    /// Works a request.
    fn request(&mut self) -> Result<(), AllocError> {
        if self.standing == Standing::Busy {
            return Ok(());
        }
        if self.state != 0 && self.jammed() {
            self.mark = true;
            return Ok(());
        }
        let ticks = self.gap.len() as u64;
        let floor = if ticks == 0 {
            0
        } else {
            self.level(self.best(ticks)).cost(ticks)
        };
        let energy = self
            .drawn(self.gap.as_slice())
            .wrapping_add(self.level(self.state).wake);
        self.closed.push(Gap {
            energy,
            floor,
            stuck: self.mark,
            from: self.state,
        })?;
        self.gap.clear();
        self.mark = false;
        self.state = 0;
        self.standing = Standing::Busy;
        Ok(())
    }

    /// Works a report.
    fn report(&mut self, number: u16, code: u32) {
        for part in self.parts.iter_mut() {
            if part.number == number {
                part.code = code;
            }
        }
    }

    /// Works one call.
    pub(crate) fn take(&mut self, step: Step) -> Result<(), AllocError> {
        if self.is_shut() {
            return Ok(());
        }
        // Calls are drawn as data, which the library and this code get, and no closures.
        match step {
            Step::Tick => self.tick()?,
            Step::Request => self.request()?,
            Step::Release { manager, count } => {
                if manager == self.number && u64::from(count) == self.closed.len() as u64 {
                    self.standing = Standing::Idle;
                }
            }
            Step::Report { number, code } => self.report(number, code),
            Step::Figures => {}
        }
        Ok(())
    }

    /// The figures, summed up from what is kept.
    pub(crate) fn figures(&self) -> Figures {
        let mut figures = Figures {
            busy: self.drawn(self.busy_ticks.as_slice()),
            pending: self.drawn(self.gap.as_slice()),
            length: (self.gap.len() & 0xffff_ffff) as u32,
            mark: self.mark,
            ..Figures::default()
        };
        for gap in self.closed.iter() {
            if gap.stuck {
                figures.stuck = figures.stuck.wrapping_add(gap.energy);
            } else {
                figures.clean = figures.clean.wrapping_add(gap.energy);
                figures.floor = figures.floor.wrapping_add(gap.floor);
            }
            figures.gaps = figures.gaps.wrapping_add(1);
            if let Some(left) = figures.states.get_mut(gap.from) {
                left.wakes = left.wakes.wrapping_add(1);
            }
        }
        for state in self.idle_ticks.iter().chain(self.busy_ticks.iter()) {
            figures.ticks = figures.ticks.wrapping_add(1);
            if let Some(held) = figures.states.get_mut(*state) {
                held.ticks = held.ticks.wrapping_add(1);
            }
        }
        figures
    }
}
