//! Two devices behind a rail, which move together and are a device again.
ghost use Rattle.std.specs.Prelude.{◌≡◌, ◌+◌};
ghost use Rattle.devices.specs.Pair.{capped, joined_table, joined_status};

use crate::device::{Device, Part, Refusal};
use states::StateTable;

/// What a rail draws: its power in each state but the deepest, and its energy to wake from the deepest.
#[derive(Clone, Copy, Debug, PartialEq, Eq)]
pub struct Rail {
    pub power: u32,
    pub energy: u32,
}

/// Two devices behind a rail.
#[derive(Drop)]
pub struct Joined<A, B> {
    first: A,
    second: B,
    rail: Rail,
}

impl<A, B> Joined<A, B> {
    /// Joins two devices, each in the state that it is in.
    pub fn new(first: A, second: B, rail: Rail) -> Joined<A, B>
        ensures first { result.first ≡ first }
        ensures second { result.second ≡ second }
        ensures rail { result.rail ≡ rail }
    {
        Joined {
            first,
            second,
            rail,
        }
    }
}

/// The sum of three, which stops at the largest number of 32 bits.
fn capped_sum(a: u32, b: u32, c: u32) -> u32
    ensures { result ≡ capped (a + b + c) }
{
    a.saturating_add(b).saturating_add(c)
}

impl<A: StateTable, B: StateTable> StateTable for Joined<A, B> {
    ghost table = { λ j. joined_table (A.StateTable.table j.first) (B.StateTable.table j.second) j.rail.power j.rail.energy };

    fn deepest(&self) -> u8 {
        self.first.deepest().max(self.second.deepest())
    }

    // Power and wake energy take the rail on opposite sides: one function for both would need a flag.
    fn power(&self, state: u8) -> u32 {
        let extra = if self.deepest() <= state {
            0
        } else {
            self.rail.power
        };
        capped_sum(self.first.power(state), self.second.power(state), extra)
    }

    fn wake_energy(&self, state: u8) -> u32 {
        let extra = if state < self.deepest() {
            0
        } else {
            self.rail.energy
        };
        capped_sum(
            self.first.wake_energy(state),
            self.second.wake_energy(state),
            extra,
        )
    }

    fn latency(&self, state: u8) -> u32 {
        self.first.latency(state).max(self.second.latency(state))
    }
}

impl<A: Device, B: Device> Device for Joined<A, B> {
    ghost status = { λ j. joined_status (A.StateTable.table j.first) (A.Device.status j.first) (B.StateTable.table j.second) (B.Device.status j.second) };

    fn state(&self) -> u8 {
        self.first.state().max(self.second.state())
    }

    fn held_count(&self) -> u32 {
        self.first.held_count().min(self.second.held_count())
    }

    fn settled(&self) -> bool {
        let state = self.state();
        self.first.settled()
            && self.second.settled()
            && self.first.state() == state.min(self.first.deepest())
            && self.second.state() == state.min(self.second.deepest())
    }

    fn fault(&self) -> Option<Part> {
        self.first
            .fault()
            .or(self.second.fault())
            .map(Part::layered)
    }

    fn hold(&mut self, state: u8) -> Result<u32, Refusal> {
        self.may_hold(state)?;
        let first = state.min(self.first.deepest());
        let second = state.min(self.second.deepest());
        let energy = self.power(state);
        self.first.hold(first)?;
        self.second.hold(second)?;
        Ok(energy)
    }

    fn wake(&mut self) -> Result<u32, Refusal> {
        self.may_wake()?;
        let energy = self.wake_energy(self.state());
        self.first.wake()?;
        self.second.wake()?;
        Ok(energy)
    }

    fn report(&mut self, number: u16, code: u32) -> bool {
        let in_first = self.first.report(number, code);
        let in_second = self.second.report(number, code);
        in_first | in_second
    }
}
