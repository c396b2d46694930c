//! What a state table tells, and what can be asked of any table.
ghost use Rattle.std.specs.Prelude.{◌≡◌, IfOk};
ghost use Rattle.states.specs.Table.{Table, at, rows_of};
ghost use Rattle.states.specs.Fit.{unfitness, told};
ghost use Rattle.states.specs.Energy.{floor_of};
ghost use Rattle.states.specs.Ticks.{first_tick};

use crate::fit_rows::FitRows;
use crate::row::Row;
use crate::unfit::Unfit;

/// A state table. A question about a state beyond the deepest is answered as for the deepest.
pub trait StateTable {
    ghost table: { Self → Table };

    /// The deepest state.
    fn deepest(&self) -> u8
        ensures { result ≡ (table self.now).deepest };

    /// The units that a tick in a state draws.
    fn power(&self, state: u8) -> u32
        ensures { result ≡ (at (table self.now) state).power };

    /// The energy that waking from a state draws.
    fn wake_energy(&self, state: u8) -> u32
        ensures { result ≡ (at (table self.now) state).wake };

    /// The ticks that waking from a state takes.
    fn latency(&self, state: u8) -> u32
        ensures { result ≡ (at (table self.now) state).latency };

    /// All three, as a row.
    fn row(&self, state: u8) -> Row
        ensures { result ≡ at (table self.now) state }
    {
        Row {
            power: self.power(state),
            wake: self.wake_energy(state),
            latency: self.latency(state),
        }
    }
}

// Two functions and no generic one: that would take the question as a closure, and its contract speak of what that answers.

/// The floor of a gap of `length` ticks on any table, or why the table is not fit.
pub fn floor<T: StateTable>(table: &T, length: u32) -> Result<u64, Unfit>
    ensures refusal { told result ≡ unfitness (rows_of (T.StateTable.table table.now)) }
    ensures value { IfOk result (λ least. least ≡ floor_of (rows_of (T.StateTable.table table.now)) length) }
{
    let rows = FitRows::gather(table)?;
    Ok(rows.floor(length))
}

/// The first tick of a state on any table, `None` where it has none, or why the table is not fit.
pub fn first_tick<T: StateTable>(table: &T, state: u8) -> Result<Option<u32>, Unfit>
    ensures refusal { told result ≡ unfitness (rows_of (T.StateTable.table table.now)) }
    ensures value { IfOk result (λ first. first ≡ first_tick (rows_of (T.StateTable.table table.now)) state) }
{
    let rows = FitRows::gather(table)?;
    Ok(rows.first_tick(state))
}
