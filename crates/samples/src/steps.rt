//! Calls that close a stuck gap.
use manager::Step;

/// The number of the device that the calls are for.
pub const PART: u16 = 7;

/// Three ticks, a fault, a tick that it holds up, the fault cleared, a tick, a request: a stuck gap. Then the figures.
pub const STUCK_GAP: &[Step] = &[
    Step::Tick,
    Step::Tick,
    Step::Tick,
    Step::Report {
        number: PART,
        code: 9,
    },
    Step::Tick,
    Step::Report {
        number: PART,
        code: 0,
    },
    Step::Tick,
    Step::Request,
    Step::Figures,
];
