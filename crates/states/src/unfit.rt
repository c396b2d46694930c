//! Why a table is not fit.
ghost use Rattle.std.specs.Prelude.{◌≡◌};
ghost use Rattle.states.specs.Fit.{unfit_number};

/// Why a table is not fit.
#[derive(Clone, Copy, Debug, PartialEq, Eq)]
pub enum Unfit {
    /// Fewer than two states, or more than sixteen.
    StateCount,
    /// A number above its maximum.
    Number,
    /// State 0 has a wake energy or a latency, or a state is not deeper than the one before it.
    Order,
}

impl Unfit {
    /// The number of the refusal.
    pub fn number(self) -> u8
        ensures { result ≡ unfit_number self }
    {
        // No numbers at the cases: who casts one by `as` gets its place among them.
        match self {
            Unfit::StateCount => 12,
            Unfit::Number => 13,
            Unfit::Order => 14,
        }
    }
}
