//! A device as its meaning: levels, state, held count, parts and whether it is settled. Each make only says how these
//! come from those of the devices below; the commands are the same for all.
use crate::naive::answer::Refusal;
use crate::naive::early::Early;
use crate::naive::table;
use crate::naive::table::Level;
use devices::{Fault, Part, Rail};
use std::alloc::{AllocError, Global};

/// A device of any make.
#[derive(Debug, Drop)]
pub struct Device {
    levels: Vec<Level>,
    state: u8,
    held: u32,
    parts: Vec<Part>,
    settled: bool,
}

/// A part as seen from one layer further up.
fn layered(part: &Part) -> Part {
    Part {
        depth: part.depth.saturating_add(1),
        ..*part
    }
}

impl Device {
    /// A table device, or the refusal of the rows.
    pub(crate) fn basic(heap: Global, number: u16, rows: &[u8]) -> Result<Device, Early<Refusal>> {
        if rows.len() < 12 || rows.len() > 192 || rows.len() % 12 != 0 {
            return Err(Early::Refused(Refusal::numbered(15)));
        }
        let part = Part {
            number,
            code: 0,
            depth: 0,
        };
        Ok(Device {
            levels: table::levels_of(heap, rows)?,
            state: 0,
            held: 0,
            parts: vec![in heap; part]?,
            settled: true,
        })
    }

    /// A latency limit over a device.
    pub(crate) fn limited(heap: Global, lower: &Device, limit: u32) -> Result<Device, AllocError> {
        let levels = table::limited(heap, lower.levels(), limit)?;
        let settled = lower.settled && lower.state <= table::deepest(levels.as_slice());
        Ok(Device {
            levels,
            state: lower.state,
            held: lower.held,
            parts: lower.parts.iter().map(layered).collect(heap)?,
            settled,
        })
    }

    /// Two devices behind a rail.
    pub(crate) fn joined(
        heap: Global,
        first: &Device,
        second: &Device,
        rail: Rail,
    ) -> Result<Device, AllocError> {
        let state = first.state.max(second.state);
        let parts = first.parts.iter().chain(second.parts.iter());
        Ok(Device {
            levels: table::joined(heap, first.levels(), second.levels(), rail)?,
            state,
            held: first.held.min(second.held),
            parts: parts.map(layered).collect(heap)?,
            settled: first.settled
                && second.settled
                && first.state == state.min(first.deepest())
                && second.state == state.min(second.deepest()),
        })
    }

    /// The levels of the device's table.
    pub(crate) fn levels(&self) -> &[Level] {
        self.levels.as_slice()
    }

    /// The deepest state.
    pub(crate) fn deepest(&self) -> u8 {
        table::deepest(self.levels())
    }

    /// The level of a state, beyond the deepest that of the deepest.
    pub(crate) fn level(&self, state: u8) -> Level {
        table::level_at(self.levels(), state)
    }

    /// The state.
    pub(crate) fn state(&self) -> u8 {
        self.state
    }

    /// The ticks held so far.
    pub(crate) fn held(&self) -> u32 {
        self.held
    }

    /// Whether the device is settled.
    pub(crate) fn settled(&self) -> bool {
        self.settled
    }

    /// The first part with a code other than 0.
    pub(crate) fn fault(&self) -> Option<Part> {
        self.parts.iter().find(|part| part.code != 0).copied()
    }

    /// Whether it may go to a state, which a faulty part refuses if it is another.
    fn may_go(&self, to: u8) -> Result<(), Refusal> {
        let from = self.state;
        match self.fault() {
            Some(part) if from != to => Err(Refusal::jammed(
                43,
                Fault {
                    number: part.number,
                    code: part.code,
                    depth: part.depth,
                    from,
                    to,
                },
            )),
            _ => Ok(()),
        }
    }

    /// Whether it may hold a state.
    pub(crate) fn may_hold(&self, state: u8) -> Result<(), Refusal> {
        if !self.settled {
            return Err(Refusal::numbered(41));
        }
        if state < self.state || state > self.deepest() {
            return Err(Refusal::numbered(42));
        }
        self.may_go(state)
    }

    /// Whether it may be woken.
    pub(crate) fn may_wake(&self) -> Result<(), Refusal> {
        if !self.settled {
            return Err(Refusal::numbered(41));
        }
        self.may_go(0)
    }

    /// Holds a state for one tick.
    pub(crate) fn hold(&mut self, state: u8) -> Result<u32, Refusal> {
        self.may_hold(state)?;
        self.state = state;
        self.held = self.held.saturating_add(1);
        Ok(self.level(state).power)
    }

    /// Goes back to state 0.
    pub(crate) fn wake(&mut self) -> Result<u32, Refusal> {
        self.may_wake()?;
        let left = self.state;
        self.state = 0;
        Ok(self.level(left).wake)
    }

    /// Sets the code of each part with a number; whether there was one.
    pub(crate) fn report(&mut self, number: u16, code: u32) -> bool {
        let mut found = false;
        for part in self.parts.iter_mut() {
            if part.number == number {
                part.code = code;
                found = true;
            }
        }
        found
    }
}
