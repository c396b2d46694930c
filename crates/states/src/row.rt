//! The row of a state.
ghost use Rattle.std.specs.Prelude.{◌≡◌, ◌<◌, ◌≤◌};
ghost use Rattle.states.specs.Table.{cost};
ghost use Rattle.states.specs.Fit.{within, deepens};
ghost use Rattle.states.specs.Overtake.{Overtakes};

/// The most units per tick in a fit table.
pub const MAX_POWER: u32 = 1_000_000;

/// The most wake energy in a fit table.
pub const MAX_WAKE: u32 = 1_000_000_000;

/// The longest latency in a fit table.
pub const MAX_LATENCY: u32 = 100_000;

/// A state: the units that a tick in it draws, the energy that waking from it draws, and the ticks that waking takes.
#[derive(Clone, Copy, Debug, Default, PartialEq, Eq)]
pub struct Row {
    pub power: u32,
    pub wake: u32,
    pub latency: u32,
}

impl Row {
    /// What `n` ticks in this state cost, with the wake-up after them.
    pub fn cost_of(&self, n: u32) -> u64
        ensures { result ≡ cost self.now n }
    {
        u64::from(self.wake) + u64::from(self.power) * u64::from(n)
    }

    /// Whether each number is at most its maximum.
    pub(crate) fn is_within(&self) -> bool
        ensures { result ≡ within self.now }
    {
        self.power <= MAX_POWER && self.wake <= MAX_WAKE && self.latency <= MAX_LATENCY
    }

    /// Whether this row may stand right below `above`.
    pub(crate) fn is_below(&self, above: &Row) -> bool
        ensures { result ≡ deepens above.now self.now }
    {
        self.power < above.power && above.wake < self.wake && above.latency <= self.latency
    }

    /// The first tick from which on this state costs less than a shallower one.
    pub(crate) fn overtakes(&self, above: &Row) -> u32
        requires draws_less { self.now.power < above.now.power }
        requires wakes_no_cheaper { above.now.wake ≤ self.now.wake }
        requires low_wake { self.now.wake ≤ 1000000000 }
        ensures tick { Overtakes self.now above.now result }
        ensures low { result ≤ 1000000001 }
    {
        (self.wake - above.wake) / (above.power - self.power) + 1
    }
}
