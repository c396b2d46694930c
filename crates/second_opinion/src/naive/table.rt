//! State tables as lists of levels, and what follows from a table alone. `second` has its own: two independent opinions.
use crate::naive::answer::Refusal;
use devices::Rail;
use std::alloc::{AllocError, Global};

/// Power, wake energy and latency of a state. Like the library's row, but a type of its own, since its rules are written anew.
#[derive(Clone, Copy, Debug, Default, PartialEq, Eq)]
pub struct Level {
    pub power: u32,
    pub wake: u32,
    pub latency: u32,
}

/// The number in four bytes from a place on, the lowest byte first.
fn number_at(row: &[u8], place: usize) -> u32 {
    row.get(place..)
        .and_then(|rest| rest.first_chunk::<4>())
        .map_or(0, |bytes| u32::from_le_bytes(*bytes))
}

/// The level of a row of 12 bytes.
fn level_of(row: &[u8]) -> Level {
    Level {
        power: number_at(row, 0),
        wake: number_at(row, 4),
        latency: number_at(row, 8),
    }
}

/// The levels of rows of 12 bytes.
pub(crate) fn levels_of(heap: Global, rows: &[u8]) -> Result<Vec<Level>, AllocError> {
    rows.chunks_exact(12).map(level_of).collect(heap)
}

/// The number of the deepest state.
pub(crate) fn deepest(levels: &[Level]) -> u8 {
    (levels.len().saturating_sub(1) & 0xff) as u8
}

/// The level of a state; beyond the deepest that of the deepest.
pub(crate) fn level_at(levels: &[Level], state: u8) -> Level {
    let state = state.min(deepest(levels));
    levels.get(usize::from(state)).copied().unwrap_or_default()
}

/// The levels up to the first state after state 0 whose latency is above a limit.
pub(crate) fn limited(
    heap: Global,
    levels: &[Level],
    limit: u32,
) -> Result<Vec<Level>, AllocError> {
    let awake = levels.iter().take(1);
    let asleep = levels.iter().skip(1);
    awake
        .chain(asleep.take_while(|level| level.latency <= limit))
        .copied()
        .collect(heap)
}

/// The levels of two tables behind a rail.
pub(crate) fn joined(
    heap: Global,
    first: &[Level],
    second: &[Level],
    rail: Rail,
) -> Result<Vec<Level>, AllocError> {
    let last = deepest(first).max(deepest(second));
    (0..=last)
        .map(|state| {
            let one = level_at(first, state);
            let other = level_at(second, state);
            let power = one.power.saturating_add(other.power);
            let wake = one.wake.saturating_add(other.wake);
            let (power, wake) = if state == last {
                (power, wake.saturating_add(rail.energy))
            } else {
                (power.saturating_add(rail.power), wake)
            };
            Level {
                power,
                wake,
                latency: one.latency.max(other.latency),
            }
        })
        .collect(heap)
}

/// Whether some number of a table is above its maximum.
fn has_too_large(levels: &[Level]) -> bool {
    levels.iter().any(|level| {
        level.power > 1_000_000 || level.wake > 1_000_000_000 || level.latency > 100_000
    })
}

/// Whether the states of a table are in a wrong order.
fn has_wrong_order(levels: &[Level]) -> bool {
    let first = level_at(levels, 0);
    first.wake != 0
        || first.latency != 0
        || levels.windows(2).any(|pair| match pair {
            [before, here] => {
                here.power >= before.power
                    || here.wake <= before.wake
                    || here.latency < before.latency
            }
            _ => false,
        })
}

/// Whether a table is fit, or the refusal of one that is not.
pub(crate) fn fitness(levels: &[Level]) -> Result<(), Refusal> {
    if levels.len() < 2 || levels.len() > 16 {
        Err(Refusal::numbered(12))
    } else if has_too_large(levels) {
        Err(Refusal::numbered(13))
    } else if has_wrong_order(levels) {
        Err(Refusal::numbered(14))
    } else {
        Ok(())
    }
}

/// The cost of a level at a gap's length.
fn cost(level: Level, length: u64) -> u64 {
    u64::from(level.wake).wrapping_add(u64::from(level.power).wrapping_mul(length))
}

/// The shallowest state of least cost at a gap's length.
pub(crate) fn envelope(levels: &[Level], length: u64) -> u8 {
    (0..=deepest(levels))
        .min_by_key(|state| cost(level_at(levels, *state), length))
        .unwrap_or(0)
}

/// The floor of a gap: the least cost at its length, 0 for a gap of no ticks.
pub(crate) fn floor(levels: &[Level], length: u64) -> u64 {
    if length == 0 {
        return 0;
    }
    levels
        .iter()
        .map(|level| cost(*level, length))
        .min()
        .unwrap_or(u64::MAX)
}
