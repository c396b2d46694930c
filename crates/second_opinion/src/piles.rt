//! Trials on piles of devices of all shapes.
use crate::bench::{About, Bench};
use crate::twin::Twin;
use crate::{rows, twin};
use devices::{Device, Joined, LatencyLimit, Rail, TableDevice};
use std::alloc::AllocError;
use std::fmt;

/// The shapes of piles.
#[derive(Clone, Copy, Debug, PartialEq, Eq)]
pub enum Shape {
    Table,
    Limit,
    LimitOnLimit,
    Pair,
    LimitOnPair,
    PairOfLimit,
    PairOnPair,
}

impl Shape {
    /// All shapes.
    pub const ALL: [Shape; 7] = [
        Shape::Table,
        Shape::Limit,
        Shape::LimitOnLimit,
        Shape::Pair,
        Shape::LimitOnPair,
        Shape::PairOfLimit,
        Shape::PairOnPair,
    ];
}

impl fmt::Display for Shape {
    fn fmt<W: fmt::Write>(&self, f: &mut fmt::Formatter<W>) -> fmt::Result {
        let name = match self {
            Shape::Table => "table",
            Shape::Limit => "limit on table",
            Shape::LimitOnLimit => "limit on limit on table",
            Shape::Pair => "pair of tables",
            Shape::LimitOnPair => "limit on pair of tables",
            Shape::PairOfLimit => "pair of limit on table, table",
            Shape::PairOnPair => "pair of table, limit on pair of tables",
        };
        write!(f, "{name}")
    }
}

/// Sometimes commands a device before something is put over it.
fn prepare<D: Device + Drop>(bench: &mut Bench, twin: &mut Twin<D>) {
    let often = match bench.about {
        About::Commands => 3,
        About::Calls => 60,
    };
    if bench.random.once_in(often) {
        let count = bench.random.below(8);
        twin.stir(bench, count);
    }
}

/// Puts a limit over a device.
fn limit<D: Device + Drop>(
    bench: &mut Bench,
    mut lower: Twin<D>,
) -> Result<Twin<LatencyLimit<D>>, AllocError> {
    prepare(bench, &mut lower);
    let most = match bench.random.below(16) {
        0 | 1 => u32::MAX,
        2 | 3 => bench.random.below(100_002),
        4 => 0,
        _ => bench.random.below(16),
    };
    twin::limited(bench.heap, lower, most)
}

/// The power or the energy of a rail.
fn rail_number(bench: &mut Bench) -> u32 {
    match bench.random.below(100) {
        0 => u32::MAX,
        1 => 1_000_000,
        2 => bench.random.word(),
        _ => bench.random.below(7),
    }
}

/// Joins two devices.
fn join<D: Device + Drop, E: Device + Drop>(
    bench: &mut Bench,
    mut first: Twin<D>,
    mut second: Twin<E>,
) -> Result<Twin<Joined<D, E>>, AllocError> {
    prepare(bench, &mut first);
    prepare(bench, &mut second);
    let rail = Rail {
        power: rail_number(bench),
        energy: rail_number(bench),
    };
    twin::joined(bench.heap, first, second, rail)
}

/// Works with a whole pile: commands and questions, then a list of calls.
fn work<D: Device + Drop>(bench: &mut Bench, mut pile: Twin<D>) -> Result<(), AllocError> {
    pile.ask(bench);
    let commands = match bench.about {
        About::Commands => bench.random.below(24),
        About::Calls => bench.random.below(60).saturating_sub(54),
    };
    pile.stir(bench, commands);
    if !bench.random.once_in(3) {
        pile.wake(bench);
    }
    let number = bench.random.short(4);
    let calls = match bench.about {
        About::Commands => bench.random.below(4),
        About::Calls => bench.random.below(60),
    };
    pile.manage(bench, number, calls)
}

/// Piles up to three basic devices, and works with the pile.
fn pile_up(
    bench: &mut Bench,
    shape: Shape,
    first: Twin<TableDevice<'_>>,
    second: Twin<TableDevice<'_>>,
    third: Twin<TableDevice<'_>>,
) -> Result<(), AllocError> {
    // Each shape is another type, and shapes are drawn as data: the place where one becomes the other.
    match shape {
        Shape::Table => work(bench, first),
        Shape::Limit => {
            let pile = limit(bench, first)?;
            work(bench, pile)
        }
        Shape::LimitOnLimit => {
            let lower = limit(bench, first)?;
            let pile = limit(bench, lower)?;
            work(bench, pile)
        }
        Shape::Pair => {
            let pile = join(bench, first, second)?;
            work(bench, pile)
        }
        Shape::LimitOnPair => {
            let both = join(bench, first, second)?;
            let pile = limit(bench, both)?;
            work(bench, pile)
        }
        Shape::PairOfLimit => {
            let quick = limit(bench, first)?;
            let pile = join(bench, quick, second)?;
            work(bench, pile)
        }
        Shape::PairOnPair => {
            let both = join(bench, second, third)?;
            let quick = limit(bench, both)?;
            let pile = join(bench, first, quick)?;
            work(bench, pile)
        }
    }
}

/// One trial on a pile of a pseudo-random shape.
pub(crate) fn trial(bench: &mut Bench, about: About) -> Result<(), AllocError> {
    bench.about = about;
    let shape = Shape::ALL[bench.random.place(Shape::ALL.len())];
    let first_rows = rows::rows_or_not(bench)?;
    let second_rows = rows::rows_or_not(bench)?;
    let third_rows = rows::rows_or_not(bench)?;
    let second_number = if bench.random.once_in(8) { 7 } else { 8 };
    let Some(first) = twin::basic(bench, 7, first_rows.as_slice())? else {
        return Ok(());
    };
    let Some(second) = twin::basic(bench, second_number, second_rows.as_slice())? else {
        return Ok(());
    };
    let Some(third) = twin::basic(bench, 9, third_rows.as_slice())? else {
        return Ok(());
    };
    bench.tried.piles.note(shape as u8);
    pile_up(bench, shape, first, second, third)
}
