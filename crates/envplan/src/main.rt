//! Reads a state table from standard input, one row a line (`power wake latency`), and prints its plan: the first tick
//! of each state, and for each gap length given as an argument what a clean gap draws, its floor and the state left.
#![tactic(auto)]

use plan::{Fault, Sheet};
use states::{FitRows, StateTable};
use std::env;
use std::io::{BufRead, BufReader};

/// The rows of standard input.
fn read_sheet(rt: &HostRuntime) -> anyhow::Result<Sheet> {
    let heap = rt.alloc();
    let mut sheet = Sheet::new(heap);
    for (before, text) in BufReader::new(heap, rt.stdin())?.lines(heap).enumerate() {
        sheet.add(before.saturating_add(1), text?.as_str())?;
    }
    Ok(sheet)
}

/// The gap lengths given as arguments; where there are none, the first ticks of the states.
fn read_lengths(rt: &HostRuntime, rows: &FitRows) -> anyhow::Result<Vec<u32>> {
    let heap = rt.alloc();
    let mut lengths = Vec::new(heap);
    // By `try_collect` another line would be printed where memory runs out.
    for (place, word) in env::args(rt)?.enumerate().skip(1) {
        let length = plan::number(word.as_str()).ok_or(Fault::Length(place))?;
        lengths.push(length)?;
    }
    if lengths.is_empty() {
        return Ok(plan::first_ticks(heap, rows)?);
    }
    Ok(lengths)
}

fn run(rt: &HostRuntime) -> anyhow::Result<()> {
    let heap = rt.alloc();
    let sheet = read_sheet(rt)?;
    let rows = FitRows::gather(&sheet).map_err(Fault::Table)?;
    let lengths = read_lengths(rt, &rows)?;
    for state in 0..=sheet.deepest() {
        rt.println(plan::state_line(heap, &rows, state)?)?;
    }
    for length in &lengths {
        rt.println(plan::gap_line(heap, &rows, *length)?)?;
    }
    rt.println(plan::total_line(heap, rows.totals(lengths.as_slice()))?)?;
    Ok(())
}

fn main(rt: HostRuntime) -> anyhow::Result<()> {
    run(&rt)
}
