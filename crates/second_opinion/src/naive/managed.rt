//! The manager: a gap is the list of its ticks, and the figures are summed up from the lists when they are asked for.
//! `second` has its own: two independent opinions.
use crate::naive::answer::{Answer, Refusal};
use crate::naive::device::Device;
use crate::naive::early::Early;
use crate::naive::table;
use manager::{ClosedGap, Step, Ticked};
use samples::Figures;
use std::alloc::{AllocError, Global};

/// A manager over one device.
#[derive(Debug, Drop)]
pub struct Manager {
    number: u16,
    device: Device,
    attached: Result<(), Refusal>,
    busy: bool,
    mark: bool,
    /// The states of the ticks of the open gap.
    gap: Vec<u8>,
    /// The states of all idle ticks, and of all busy ones.
    idle_ticks: Vec<u8>,
    busy_ticks: Vec<u8>,
    closed: Vec<ClosedGap>,
}

/// Whether a device may be attached, or the refusal of one that may not.
fn attach(device: &Device) -> Result<(), Refusal> {
    if !device.settled() || device.state() != 0 {
        return Err(Refusal::numbered(11));
    }
    table::fitness(device.levels())
}

/// The length of a list, as far as 32 bits go.
fn count<T>(list: &[T]) -> u32 {
    (list.len() & 0xffff_ffff) as u32
}

impl Manager {
    /// Attaches a device.
    pub(crate) fn attach(heap: Global, number: u16, device: Device) -> Manager {
        let attached = attach(&device);
        Manager {
            number,
            device,
            attached,
            busy: false,
            mark: false,
            gap: Vec::new(heap),
            idle_ticks: Vec::new(heap),
            busy_ticks: Vec::new(heap),
            closed: Vec::new(heap),
        }
    }

    /// Whether the device was attached, or why not.
    pub(crate) fn attached(&self) -> Result<(), Refusal> {
        self.attached
    }

    /// The number of closed gaps.
    pub(crate) fn gaps(&self) -> u32 {
        count(self.closed.as_slice())
    }

    /// Whether the manager is busy.
    pub(crate) fn is_busy(&self) -> bool {
        self.busy
    }

    /// The number of accepted ticks.
    fn ticks(&self) -> u32 {
        count(self.idle_ticks.as_slice()).wrapping_add(count(self.busy_ticks.as_slice()))
    }

    /// The power of all the ticks of a list.
    fn drawn(&self, ticks: &[u8]) -> u64 {
        ticks
            .iter()
            .map(|state| u64::from(self.device.level(*state).power))
            .fold(0u64, |sum, power| sum.wrapping_add(power))
    }

    /// Works a tick.
    fn tick(&mut self) -> Result<Answer, Early<Refusal>> {
        if self.ticks() >= 1_000_000 {
            return Err(Early::Refused(Refusal::numbered(23)));
        }
        let wanted = if self.busy {
            0
        } else {
            table::envelope(
                self.device.levels(),
                (self.gap.len() as u64).wrapping_add(1),
            )
        };
        let (energy, fault) = match self.device.hold(wanted) {
            Err(Refusal { number: 43, jam }) => {
                self.mark = true;
                (self.device.hold(self.device.state())?, jam)
            }
            held => (held?, None),
        };
        let state = self.device.state();
        if self.busy {
            self.busy_ticks.push(state)?;
        } else {
            self.gap.push(state)?;
            self.idle_ticks.push(state)?;
        }
        Ok(Answer::Ticked(Ticked {
            state,
            energy,
            fault,
        }))
    }

    /// Closes the open gap, whose device was woken from a state with an energy.
    fn close(&mut self, from: u8, wake: u32) -> Result<Answer, AllocError> {
        let gap = ClosedGap {
            length: count(self.gap.as_slice()),
            energy: self
                .drawn(self.gap.as_slice())
                .wrapping_add(u64::from(wake)),
            floor: table::floor(self.device.levels(), self.gap.len() as u64),
            stuck: self.mark,
            from,
            latency: self.device.level(from).latency,
        };
        self.closed.push(gap)?;
        self.gap.clear();
        self.mark = false;
        self.busy = true;
        Ok(Answer::Closed {
            manager: self.number,
            count: self.gaps(),
            gap,
        })
    }

    /// Works a request.
    fn request(&mut self) -> Result<Answer, Early<Refusal>> {
        if self.busy {
            return Err(Early::Refused(Refusal::numbered(21)));
        }
        if self.closed.len() >= 1_000_000 {
            return Err(Early::Refused(Refusal::numbered(24)));
        }
        let from = self.device.state();
        match self.device.wake() {
            Err(Refusal { number: 43, jam }) => {
                self.mark = true;
                Err(Early::Refused(Refusal { number: 31, jam }))
            }
            woken => Ok(self.close(from, woken?)?),
        }
    }

    /// Works a release.
    fn release(&mut self, manager: u16, count: u32) -> Result<Answer, Refusal> {
        if self.busy && manager == self.number && count == self.gaps() {
            self.busy = false;
            Ok(Answer::Released)
        } else {
            Err(Refusal::numbered(22))
        }
    }

    /// Works a report.
    fn report(&mut self, number: u16, code: u32) -> Result<Answer, Refusal> {
        if self.device.report(number, code) {
            Ok(Answer::Reported)
        } else {
            Err(Refusal::numbered(25))
        }
    }

    /// Works one call.
    pub(crate) fn take(&mut self, step: Step) -> Result<Answer, Early<Refusal>> {
        if step != Step::Figures {
            self.attached?;
        }
        // Calls are drawn as data, which the library and this code get, and no closures.
        match step {
            Step::Tick => self.tick(),
            Step::Request => self.request(),
            Step::Release { manager, count } => Ok(self.release(manager, count)?),
            Step::Report { number, code } => Ok(self.report(number, code)?),
            Step::Figures => Ok(Answer::Shown(self.figures())),
        }
    }

    /// The figures, summed up from the lists.
    pub(crate) fn figures(&self) -> Figures {
        let mut figures = Figures {
            busy: self.drawn(self.busy_ticks.as_slice()),
            pending: self.drawn(self.gap.as_slice()),
            length: count(self.gap.as_slice()),
            mark: self.mark,
            ticks: self.ticks(),
            gaps: self.gaps(),
            ..Figures::default()
        };
        for gap in self.closed.iter() {
            if gap.stuck {
                figures.stuck = figures.stuck.wrapping_add(gap.energy);
            } else {
                figures.clean = figures.clean.wrapping_add(gap.energy);
                figures.floor = figures.floor.wrapping_add(gap.floor);
            }
            if let Some(left) = figures.states.get_mut(usize::from(gap.from)) {
                left.wakes = left.wakes.wrapping_add(1);
            }
        }
        for state in self.idle_ticks.iter().chain(self.busy_ticks.iter()) {
            if let Some(held) = figures.states.get_mut(usize::from(*state)) {
                held.ticks = held.ticks.wrapping_add(1);
            }
        }
        figures
    }
}
