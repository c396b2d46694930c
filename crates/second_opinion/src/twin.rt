//! A device of the library and the same device of the naive implementation, commanded and asked together.
use crate::bench::Bench;
use crate::calls::Command;
use crate::naive::answer::{Answer, Refusal};
use crate::naive::early;
use crate::naive::managed::Manager;
use crate::tried::{Tried, more};
use crate::{calls, library, naive};
use devices::{Device, Joined, LatencyLimit, Rail, TableDevice};
use manager::{Step, replies_to};
use states::{Row, StateTable};
use std::alloc::{AllocError, Global};

/// The two devices.
#[derive(Debug, Drop)]
pub struct Twin<D> {
    device: D,
    plain: naive::device::Device,
}

/// A table device in both; none if either refuses the rows, which both must do.
pub(crate) fn basic<'a>(
    bench: &mut Bench,
    number: u16,
    rows: &'a [u8],
) -> Result<Option<Twin<TableDevice<'a>>>, AllocError> {
    let plain = early::outcome(naive::device::Device::basic(bench.heap, number, rows))?;
    match (TableDevice::new(number, rows), plain) {
        (Ok(device), Ok(plain)) => {
            bench.tried.questions.note(true);
            Ok(Some(Twin { device, plain }))
        }
        (Err(why), Err(refusal)) => {
            bench.tried.questions.note(why.number() == refusal.number);
            more(&mut bench.tried.bad_rows);
            Ok(None)
        }
        _ => {
            bench.tried.questions.note(false);
            Ok(None)
        }
    }
}

/// A limit over a device in both.
pub(crate) fn limited<D: Device + Drop>(
    heap: Global,
    lower: Twin<D>,
    limit: u32,
) -> Result<Twin<LatencyLimit<D>>, AllocError> {
    let Twin { device, plain } = lower;
    let plain = naive::device::Device::limited(heap, &plain, limit)?;
    Ok(Twin {
        device: LatencyLimit::new(device, limit),
        plain,
    })
}

/// Two devices behind a rail in both.
pub(crate) fn joined<D: Device + Drop, E: Device + Drop>(
    heap: Global,
    first: Twin<D>,
    second: Twin<E>,
    rail: Rail,
) -> Result<Twin<Joined<D, E>>, AllocError> {
    let plain = naive::device::Device::joined(heap, &first.plain, &second.plain, rail)?;
    let Twin { device: one, .. } = first;
    let Twin { device: other, .. } = second;
    Ok(Twin {
        device: Joined::new(one, other, rail),
        plain,
    })
}

/// Compares what the two devices answered to a hold or a wake.
fn compare_moves(
    tried: &mut Tried,
    library: Result<u32, devices::Refusal>,
    plain: Result<u32, Refusal>,
) {
    tried.commands.note(library.map_err(Refusal::from) == plain);
    tried.note_move(plain);
}

impl<D: Device + Drop> Twin<D> {
    /// Asks for the numbers of a state.
    fn ask_level(&self, tried: &mut Tried, state: u8) {
        let level = self.plain.level(state);
        let same = self.device.power(state) == level.power
            && self.device.wake_energy(state) == level.wake
            && self.device.latency(state) == level.latency;
        tried.questions.note(same);
    }

    /// Whether both tell the same of what would refuse a hold of a state, or a wake.
    fn same_bars(&self, state: u8) -> bool {
        self.device.may_hold(state).map_err(Refusal::from) == self.plain.may_hold(state)
            && self.device.may_wake().map_err(Refusal::from) == self.plain.may_wake()
    }

    /// Whether both tell the same row of a state.
    fn same_row(&self, state: u8) -> bool {
        let Row {
            power,
            wake,
            latency,
        } = self.device.row(state);
        let level = self.plain.level(state);
        power == level.power && wake == level.wake && latency == level.latency
    }

    /// Asks for everything that a device can tell.
    pub(crate) fn ask(&self, bench: &mut Bench) {
        let far = bench.random.byte();
        let tried = &mut bench.tried;
        let deepest = self.plain.deepest();
        // A state of the table, or one beyond the deepest.
        let near = far % deepest.saturating_add(2);
        tried.questions.note(self.device.deepest() == deepest);
        tried
            .questions
            .note(self.device.state() == self.plain.state());
        tried
            .questions
            .note(self.device.held_count() == self.plain.held());
        tried.questions.note(self.device.settled() == self.plain.settled() && self.same_bars(near));
        tried.questions.note(self.device.fault() == self.plain.fault() && self.same_row(far));
        for state in 0..=deepest.saturating_add(1) {
            self.ask_level(tried, state);
        }
        self.ask_level(tried, far);
    }

    /// Gives one command.
    fn command(&mut self, tried: &mut Tried, command: Command) {
        // Commands are drawn as data: a closure would have to fit devices of two types.
        match command {
            Command::Hold(state) => {
                compare_moves(tried, self.device.hold(state), self.plain.hold(state));
            }
            Command::Wake => compare_moves(tried, self.device.wake(), self.plain.wake()),
            Command::Report { number, code } => {
                let found = self.plain.report(number, code);
                tried
                    .commands
                    .note(self.device.report(number, code) == found);
            }
        }
    }

    /// Gives so many pseudo-random commands, and asks for everything after each.
    pub(crate) fn stir(&mut self, bench: &mut Bench, count: u32) {
        for _ in 0..count {
            let command = calls::any_command(&mut bench.random, self.plain.state());
            self.command(&mut bench.tried, command);
            self.ask(bench);
        }
    }

    /// Wakes the device, and asks for everything after that.
    pub(crate) fn wake(&mut self, bench: &mut Bench) {
        self.command(&mut bench.tried, Command::Wake);
        self.ask(bench);
    }

    /// Attaches both to managers with a number, works a list of so many pseudo-random calls with the figures behind
    /// each, and compares all answers.
    pub(crate) fn manage(
        self,
        bench: &mut Bench,
        number: u16,
        count: u32,
    ) -> Result<(), AllocError> {
        let Twin { device, plain } = self;
        let mut manager = Manager::attach(bench.heap, number, plain);
        if let Err(refusal) = manager.attached() {
            bench.tried.refused_attaches.note(refusal.number);
        }
        let mut steps = Vec::new(bench.heap);
        let mut answers = Vec::new(bench.heap);
        for _ in 0..count {
            let call = calls::any_call(&mut bench.random, &manager, number);
            for step in [call, Step::Figures] {
                steps.push(step)?;
                answers.push(early::outcome(manager.take(step))?)?;
            }
        }
        compare_answers(bench, number, device, steps.as_slice(), answers.as_slice())
    }
}

/// Works a list of calls by the library, and compares its answers with others.
pub(crate) fn compare_answers<D: Device + Drop>(
    bench: &mut Bench,
    number: u16,
    device: D,
    steps: &[Step],
    answers: &[Result<Answer, Refusal>],
) -> Result<(), AllocError> {
    let replies = replies_to(bench.heap, number, device, steps)?;
    let tried = &mut bench.tried;
    more(&mut tried.lists);
    tried.answers.note(replies.len() == answers.len());
    for (reply, answer) in replies.iter().zip(answers.iter()) {
        tried.answers.note(library::answer_of(*reply) == *answer);
        tried.note_answer(answer);
    }
    Ok(())
}
