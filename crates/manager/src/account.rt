//! The energy account, and for each state the ticks held in it and the wakes from it.
ghost use Rattle.std.specs.Prelude.{◌≡◌, ℕ, ◌+◌, ◌<◌, slice_index_or};
ghost use Rattle.manager.specs.Tallying.{no_tally, one_tick, one_wake, tallied, tally_of, Within};

/// States that are counted.
const STATES: usize = 16;

/// What the manager has charged so far.
#[derive(Clone, Copy, Debug, Default, PartialEq, Eq)]
pub struct Account {
    /// The energy of the closed gaps that are clean.
    pub clean: u64,
    /// The floor of the closed gaps that are clean.
    pub floor: u64,
    /// The energy of the closed gaps that are stuck.
    pub stuck: u64,
    /// The energy of the busy ticks.
    pub busy: u64,
    /// The energy of the open gap so far; 0 when busy.
    pub pending: u64,
    /// The ticks of the open gap so far; 0 when busy.
    pub length: u32,
    /// Whether the open gap is stuck; not when busy.
    pub mark: bool,
    /// The accepted ticks.
    pub ticks: u32,
    /// The closed gaps.
    pub gaps: u32,
    /// For each state the ticks held and the wakes.
    pub tallies: Tallies,
}

/// The ticks held in a state, and the wakes from it.
#[derive(Clone, Copy, Debug, Default, PartialEq, Eq)]
pub struct Tally {
    pub ticks: u32,
    pub wakes: u32,
}

/// A tally for each of sixteen states. The room is fixed, since there is no heap at attach.
#[derive(Clone, Copy, Debug, Default, PartialEq, Eq)]
pub struct Tallies {
    each: [Tally; STATES],
}

impl Tally {
    fn tick(&mut self)
        requires { self.old.ticks < 1000000 }
        ensures { self.new ≡ one_tick self.old }
    {
        self.ticks += 1;
    }

    fn wake(&mut self)
        requires { self.old.wakes < 1000000 }
        ensures { self.new ≡ one_wake self.old }
    {
        self.wakes += 1;
    }
}

impl Tallies {
    /// The tally of a state; nothing for a state past the sixteenth.
    pub fn of(&self, state: u8) -> Tally
        ensures { result ≡ tally_of self.now state }
    {
        self.each
            .get(usize::from(state))
            .copied()
            .unwrap_or_default()
    }

    // The two below count different things and keep different bounds: one function over both would be longer. By
    // `get_mut` the proof did not close.

    /// One tick more in a state.
    pub(crate) fn tick(&mut self, state: u8)
        requires { (slice_index_or self.old.each state no_tally).ticks < 1000000 }
        ensures value { self.new ≡ tallied one_tick self.old state }
        ensures within { (a b : ℕ) → Within self.old a b → Within self.new (a + 1) b }
    {
        if usize::from(state) < STATES {
            let tally = &mut self.each[usize::from(state)];
            tally.tick();
        }
    }

    /// One wake more from a state.
    pub(crate) fn wake(&mut self, state: u8)
        requires { (slice_index_or self.old.each state no_tally).wakes < 1000000 }
        ensures value { self.new ≡ tallied one_wake self.old state }
        ensures within { (a b : ℕ) → Within self.old a b → Within self.new a (b + 1) }
    {
        if usize::from(state) < STATES {
            let tally = &mut self.each[usize::from(state)];
            tally.wake();
        }
    }
}
