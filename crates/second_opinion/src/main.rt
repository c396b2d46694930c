//! A second opinion: a naive implementation of tables, piles of devices, the manager and the report of a trace, written
//! from the documents without the library's code, beside the library on many pseudo-random piles, lists of calls and
//! traces. Every answer is compared.
#![tactic(auto)]

mod bench;
mod calls;
mod library;
mod naive;
mod piles;
mod reported;
mod rows;
mod shown;
mod tried;
mod twin;

use bench::{About, Bench};
use piles::Shape;
use samples::Random;
use std::alloc::AllocError;
use std::io;
use tried::{Numbers, Tried};

/// How many piles are mainly commanded.
const COMMANDED: u32 = 10_000;

/// How many piles are mainly given to a manager.
const MANAGED: u32 = 40_000;

/// How many short traces are reported.
const TRACES: u32 = 25_000;

/// How many times three long traces are reported.
const LONG_TRACES: u32 = 10;

/// Works all trials.
fn try_all(bench: &mut Bench) -> Result<(), AllocError> {
    for _ in 0..COMMANDED {
        piles::trial(bench, About::Commands)?;
    }
    for _ in 0..MANAGED {
        piles::trial(bench, About::Calls)?;
    }
    shown::million_gaps(bench)?;
    for _ in 0..TRACES {
        reported::trial(bench)?;
    }
    for _ in 0..LONG_TRACES {
        reported::long_trial(bench)?;
    }
    reported::edges(bench)
}

/// Prints how often each number came.
fn print_numbers(rt: &HostRuntime, what: &str, numbers: &Numbers) -> io::Result<()> {
    let sum = numbers.sum();
    print!(rt; "{what}: {sum}")?;
    for (number, count) in numbers.counts.iter().enumerate() {
        if *count > 0 {
            print!(rt; ", {count} with {number}")?;
        }
    }
    println!(rt; "")
}

/// Prints how many piles of each shape there were.
fn print_piles(rt: &HostRuntime, made: &Numbers) -> io::Result<()> {
    let sum = made.sum();
    println!(rt; "piles of devices: {sum}")?;
    for (shape, count) in Shape::ALL.iter().zip(made.counts.iter()) {
        println!(rt; "  {shape}: {count}")?;
    }
    Ok(())
}

/// Prints what was tried on devices.
fn print_devices(rt: &HostRuntime, tried: &Tried) -> io::Result<()> {
    let bad = tried.bad_rows;
    let commands = tried.commands.compared;
    let moves = tried.moves;
    let questions = tried.questions.compared;
    print_piles(rt, &tried.piles)?;
    println!(rt; "rows that make no device: {bad}")?;
    println!(rt; "commands to devices: {commands}, holds and wakes accepted: {moves}")?;
    print_numbers(rt, "holds and wakes refused", &tried.refused_moves)?;
    println!(rt; "questions to devices: {questions}")
}

/// Prints what was tried on managers.
fn print_managers(rt: &HostRuntime, tried: &Tried) -> io::Result<()> {
    let lists = tried.lists;
    let answers = tried.answers.compared;
    let clean = tried.clean_gaps;
    let stuck = tried.stuck_gaps;
    let ticks = tried.stuck_ticks;
    println!(rt; "lists of calls: {lists}, answers: {answers}")?;
    print_numbers(rt, "attaches refused", &tried.refused_attaches)?;
    print_numbers(rt, "calls refused", &tried.refused_calls)?;
    println!(rt;
        "gaps closed: {clean} clean and {stuck} stuck; ticks that a fault held up: {ticks}"
    )
}

/// Prints what was tried on traces.
fn print_traces(rt: &HostRuntime, tried: &Tried) -> io::Result<()> {
    let traces = tried.reports.compared;
    let whole = tried.whole;
    let gaps = tried.gap_lines;
    let jams = tried.jam_lines;
    println!(rt; "traces: {traces}, whole: {whole}, gap lines: {gaps}, jam lines: {jams}")?;
    print_numbers(rt, "traces stopped", &tried.stops)
}

/// Prints which comparisons differ, if any do.
fn print_differing(rt: &HostRuntime, tried: &Tried) -> io::Result<()> {
    let commands = tried.commands.differ;
    let questions = tried.questions.differ;
    let answers = tried.answers.differ;
    let reports = tried.reports.differ;
    if tried.all().differ == 0 {
        return Ok(());
    }
    println!(rt;
        "differing: {commands} commands, {questions} questions, {answers} answers, {reports} reports"
    )
}

/// Works all trials and prints what they were.
fn main(rt: HostRuntime) -> io::Result<()> {
    let mut bench = Bench {
        heap: rt.alloc(),
        random: Random::new(20_261_117),
        tried: Tried::default(),
        about: About::Commands,
    };
    try_all(&mut bench)?;
    print_devices(&rt, &bench.tried)?;
    print_managers(&rt, &bench.tried)?;
    print_traces(&rt, &bench.tried)?;
    shown::show_stuck(&rt, &bench)?;
    shown::show_mistake(&rt, &bench)?;
    print_differing(&rt, &bench.tried)?;
    let all = bench.tried.all();
    let compared = all.compared;
    let differ = all.differ;
    println!(rt; "{compared} compared, {differ} differ")
}
