//! Two cases worked by hand, and the limit on closed gaps.
use crate::bench::Bench;
use crate::naive::answer::{Answer, Refusal, mark};
use crate::naive::device::Device;
use crate::naive::early;
use crate::naive::managed::Manager;
use crate::{library, twin};
use devices::TableDevice;
use manager::{Step, replies_to};
use samples::{MODEM, PART, RECEIVER, STUCK_GAP};
use std::alloc::AllocError;
use std::io;

/// The number of the manager.
const MANAGER: u16 = 3;

/// The library's answers to a list of calls on a table device.
fn answers(
    bench: &Bench,
    rows: &[u8],
    steps: &[Step],
) -> Result<Vec<Result<Answer, Refusal>>, AllocError> {
    let Ok(device) = TableDevice::new(PART, rows) else {
        return Ok(Vec::new(bench.heap));
    };
    replies_to(bench.heap, MANAGER, device, steps)?
        .iter()
        .map(|reply| library::answer_of(*reply))
        .collect(bench.heap)
}

/// A stuck gap of five ticks: it draws 64 with floor 40, which is not counted.
pub(crate) fn show_stuck(rt: &HostRuntime, bench: &Bench) -> io::Result<()> {
    for answer in answers(bench, MODEM, STUCK_GAP)?.iter() {
        if let Ok(Answer::Closed { gap, .. }) = *answer {
            let mark = mark(gap);
            let energy = gap.energy;
            let floor = gap.floor;
            print!(rt; "a {mark} gap: energy {energy}, floor {floor}")?;
        }
        if let Ok(Answer::Shown(figures)) = *answer {
            let stuck = figures.stuck;
            let floor = figures.floor;
            println!(rt; "; counted: stuck energy {stuck}, floor {floor}")?;
        }
    }
    Ok(())
}

/// The energy of a gap on powers 1 and 0 and wake energies 0 and 5, where each tick's state is chosen by the costs so
/// many ticks before it. `samples` has a formula for the same, which `second` shows: the two programs share no rule.
fn late_gap(ticks: u32, late: u32) -> u64 {
    let mut energy = 0u64;
    let mut deep = false;
    for n in 1..=ticks {
        deep = 5 < n.saturating_sub(late);
        if !deep {
            energy = energy.wrapping_add(1);
        }
    }
    if deep { energy.wrapping_add(5) } else { energy }
}

/// Powers 1 and 0, wake energies 0 and 5, a gap of 7: choosing each tick's state by the costs at the tick before, which
/// is a mistake, draws more than twice the floor of 5.
pub(crate) fn show_mistake(rt: &HostRuntime, bench: &Bench) -> io::Result<()> {
    let steps = [
        Step::Tick,
        Step::Tick,
        Step::Tick,
        Step::Tick,
        Step::Tick,
        Step::Tick,
        Step::Tick,
        Step::Request,
    ];
    for answer in answers(bench, RECEIVER, &steps)?.iter() {
        if let Ok(Answer::Closed { gap, .. }) = *answer {
            let right = gap.energy;
            let twice = gap.floor.saturating_mul(2);
            let wrong = late_gap(7, 1);
            println!(rt;
                "a gap of 7: {right}, by the costs at the tick before {wrong}, twice the floor {twice}"
            )?;
        }
    }
    Ok(())
}

/// A million gaps, and a request that is refused with 24.
pub(crate) fn million_gaps(bench: &mut Bench) -> Result<(), AllocError> {
    let plain = early::outcome(Device::basic(bench.heap, PART, RECEIVER))?;
    let (Ok(plain), Ok(device)) = (plain, TableDevice::new(PART, RECEIVER)) else {
        return Ok(());
    };
    let mut manager = Manager::attach(bench.heap, MANAGER, plain);
    let mut steps = Vec::new(bench.heap);
    let mut answers = Vec::new(bench.heap);
    for count in 1u32..1_000_002 {
        let release = Step::Release {
            manager: MANAGER,
            count,
        };
        for step in [Step::Request, release] {
            steps.push(step)?;
            answers.push(early::outcome(manager.take(step))?)?;
        }
    }
    twin::compare_answers(bench, MANAGER, device, steps.as_slice(), answers.as_slice())
}
