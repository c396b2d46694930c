//! Reports on the example traces in `data/`, one after the other: every kind of line and every refusal with its place.
#![tactic(auto)]

use std::fs;

/// The traces, in the order of `examples/make.py`.
const TRACES: [&str; 47] = [
    "listing",
    "stuck",
    "jam",
    "limit",
    "limit_jam",
    "stop_1",
    "stop_2",
    "stop_3",
    "stop_4",
    "stop_4_after_end",
    "stop_5",
    "stop_12",
    "stop_13",
    "stop_14",
    "stop_21",
    "stop_22",
    "stop_23",
    "stop_25",
    "length_0_of_two_bytes",
    "length_1_of_three_bytes",
    "length_0",
    "length_1",
    "empty",
    "cut_unknown_kind",
    "unknown_kind_wrong_body",
    "late_limit_wrong_body",
    "limit_twice",
    "table_twice",
    "no_rows",
    "seventeen_rows",
    "unfit_then_nothing",
    "unfit_then_wrong_body",
    "unfit_then_trailing",
    "unfit_then_other_number",
    "other_number_first",
    "other_number_bad_note",
    "million_passed_inside",
    "lease_out_at_end",
    "lease_out_at_stop",
    "release_of_other_number",
    "report_of_other_number",
    "gap_of_no_ticks",
    "note_of_16",
    "note_of_17",
    "note_with_space",
    "sixteen_states",
    "full",
];

/// Prints a trace's name and its report.
fn show(rt: &HostRuntime, name: &str) -> anyhow::Result<()> {
    let heap = rt.alloc();
    let path = format!(in heap; "{name}.trace")?;
    let trace = fs::read(rt, path.as_str())?;
    let report = replay::report(heap, trace.as_slice())?;
    print!(rt; "-- {name}\n{report}")?;
    Ok(())
}

fn run(rt: &HostRuntime) -> anyhow::Result<()> {
    for name in TRACES {
        show(rt, name)?;
    }
    Ok(())
}

fn main(rt: HostRuntime) -> anyhow::Result<()> {
    run(&rt)
}
