//! Pseudo-random rows of tables, fit and unfit.
use crate::bench::Bench;
use crate::naive::table::Level;
use samples::Random;
use std::alloc::{AllocError, Global};

/// The number of states of a table: 1 to 16, mostly few.
fn states(random: &mut Random) -> u32 {
    match random.below(30) {
        0 | 1 | 2 => random.below(16).wrapping_add(1),
        3 | 4 => 16,
        5 => 1,
        _ => random.below(5).wrapping_add(2),
    }
}

/// By how much the wake energy rises where the power falls: mostly by a multiple of that, so that the costs of several
/// states are often level.
fn rise(random: &mut Random, fall: u32) -> u32 {
    match random.below(9) {
        0 | 1 | 2 => random.below(20).wrapping_add(1),
        3 => fall.wrapping_mul(random.below(300).wrapping_add(1)),
        _ => fall.wrapping_mul(random.below(8).wrapping_add(1)),
    }
}

/// The levels of a fit table, but that it may have one state.
fn fit_levels(bench: &mut Bench) -> Result<Vec<Level>, AllocError> {
    let mut levels = Vec::new(bench.heap);
    let random = &mut bench.random;
    let count = states(random);
    let largest_fall = match random.below(12) {
        0 => 60_000,
        1 | 2 => 1_000,
        _ => 4,
    };
    let largest_wait = if random.once_in(12) { 6_000 } else { 4 };
    let mut level = Level {
        power: count
            .wrapping_mul(largest_fall)
            .wrapping_add(random.below(3)),
        wake: 0,
        latency: 0,
    };
    levels.push(level)?;
    for _ in 1..count {
        let fall = random.below(largest_fall).wrapping_add(1);
        level.power = level.power.wrapping_sub(fall);
        level.wake = level.wake.wrapping_add(rise(random, fall));
        level.latency = level.latency.wrapping_add(random.below(largest_wait));
        levels.push(level)?;
    }
    Ok(levels)
}

/// A number near one of the maxima, or any number.
fn edge(random: &mut Random) -> u32 {
    match random.below(8) {
        0 => 1_000_000,
        1 => 1_000_001,
        2 => 1_000_000_000,
        3 => 1_000_000_001,
        4 => 100_000,
        5 => 100_001,
        6 => u32::MAX,
        _ => random.word(),
    }
}

/// Changes one number of one level: to that of its neighbour, by one, or to a number near a maximum.
fn spoil(random: &mut Random, levels: &mut [Level]) {
    let place = random.place(levels.len());
    let Some(neighbour) = levels.get(random.place(levels.len())).copied() else {
        return;
    };
    let largest = edge(random);
    let how = random.below(11);
    if let Some(level) = levels.get_mut(place) {
        match how {
            0 => level.power = neighbour.power,
            1 => level.wake = neighbour.wake,
            2 => level.latency = neighbour.latency,
            3 => level.power = level.power.wrapping_add(1),
            4 => level.wake = level.wake.wrapping_add(1),
            5 => level.latency = level.latency.saturating_sub(1),
            6 => level.latency = level.latency.wrapping_add(1),
            7 => level.wake = level.wake.saturating_sub(1),
            8 => level.power = largest,
            9 => level.wake = largest,
            _ => level.latency = largest,
        }
    }
}

/// Puts the first or last number of a kind at its maximum, where a fit table may have it.
fn stretch(random: &mut Random, levels: &mut [Level]) {
    let last = levels.len().saturating_sub(1);
    let how = random.below(3);
    let place = if how == 0 { 0 } else { last };
    if let Some(level) = levels.get_mut(place) {
        match how {
            0 => level.power = 1_000_000,
            1 => level.wake = 1_000_000_000,
            _ => level.latency = 100_000,
        }
    }
}

/// The bytes of rows.
fn bytes_of(heap: Global, levels: &[Level]) -> Result<Vec<u8>, AllocError> {
    let mut bytes = Vec::new(heap);
    for level in levels {
        for number in [level.power, level.wake, level.latency] {
            bytes.extend_from_slice(&number.to_le_bytes())?;
        }
    }
    Ok(bytes)
}

/// So many pseudo-random bytes.
fn noise(bench: &mut Bench, count: u32) -> Result<Vec<u8>, AllocError> {
    let mut bytes = Vec::new(bench.heap);
    for _ in 0..count {
        bytes.push(bench.random.byte())?;
    }
    Ok(bytes)
}

/// Rows of 12 to 192 bytes: of a table that is mostly fit, and sometimes any bytes.
pub(crate) fn rows(bench: &mut Bench) -> Result<Vec<u8>, AllocError> {
    if bench.random.once_in(80) {
        let count = bench.random.below(16).wrapping_add(1).wrapping_mul(12);
        return noise(bench, count);
    }
    let mut levels = fit_levels(bench)?;
    let random = &mut bench.random;
    if random.once_in(20) {
        stretch(random, levels.as_mut_slice());
    }
    if random.once_in(10) {
        spoil(random, levels.as_mut_slice());
    }
    if random.once_in(60) {
        spoil(random, levels.as_mut_slice());
    }
    bytes_of(bench.heap, levels.as_slice())
}

/// Rows, and rarely bytes that are no rows: of a wrong length.
pub(crate) fn rows_or_not(bench: &mut Bench) -> Result<Vec<u8>, AllocError> {
    if bench.random.once_in(100) {
        let count = bench.random.below(220);
        noise(bench, count)
    } else {
        rows(bench)
    }
}
