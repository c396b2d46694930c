//! A limit on latency over a device: it hides each slow state and all that are deeper, and is a device again.
ghost use Rattle.std.specs.Prelude.{◌≡◌};
ghost use Rattle.devices.specs.Limit.{shown_deepest, ShownInWords, limited_table, limited_status};

use crate::device::{Device, Part, Refusal};
use states::StateTable;

/// A device that is not let into states whose latency is above a limit, nor into any that is deeper than one of them.
#[derive(Drop)]
pub struct LatencyLimit<D> {
    device: D,
    limit: u32,
}

impl<D> LatencyLimit<D> {
    /// Sets a limit on a device, in the state that it is in.
    pub fn new(device: D, limit: u32) -> LatencyLimit<D>
        ensures device { result.device ≡ device }
        ensures limit { result.limit ≡ limit }
    {
        LatencyLimit { device, limit }
    }
}

/// The deepest state that a limit shows of a table. The latency of state 0 is not asked.
pub fn deepest_within<T: StateTable>(table: &T, limit: u32) -> u8
    ensures value { result ≡ shown_deepest (T.StateTable.table table.now) limit }
    ensures law { ShownInWords (T.StateTable.table table.now) limit result }
{
    let deepest = table.deepest();
    (0..deepest)
        .find(|state| table.latency(*state + 1) > limit)
        .unwrap_or(deepest)
}

impl<D: StateTable> StateTable for LatencyLimit<D> {
    ghost table = { λ d. limited_table (D.StateTable.table d.device) d.limit };

    fn deepest(&self) -> u8 {
        deepest_within(&self.device, self.limit)
    }

    fn power(&self, state: u8) -> u32 {
        self.device.power(state.min(self.deepest()))
    }

    fn wake_energy(&self, state: u8) -> u32 {
        self.device.wake_energy(state.min(self.deepest()))
    }

    fn latency(&self, state: u8) -> u32 {
        self.device.latency(state.min(self.deepest()))
    }
}

impl<D: Device> Device for LatencyLimit<D> {
    ghost status = { λ d. limited_status (D.StateTable.table d.device) (D.Device.status d.device) d.limit };

    fn state(&self) -> u8 {
        self.device.state()
    }

    fn held_count(&self) -> u32 {
        self.device.held_count()
    }

    fn settled(&self) -> bool {
        self.device.settled() && self.device.state() <= self.deepest()
    }

    fn fault(&self) -> Option<Part> {
        self.device.fault().map(Part::layered)
    }

    fn hold(&mut self, state: u8) -> Result<u32, Refusal> {
        self.may_hold(state)?;
        self.device.hold(state)
    }

    fn wake(&mut self) -> Result<u32, Refusal> {
        self.may_wake()?;
        self.device.wake()
    }

    fn report(&mut self, number: u16, code: u32) -> bool {
        self.device.report(number, code)
    }
}
