//! Room for the rows of a table: no heap is needed.
ghost use Rattle.std.specs.Prelude.{◌≡◌, ◌<◌, ◌≤◌, length};
ghost use Rattle.states.specs.Table.{rows_of};
ghost use Rattle.states.specs.Fit.{all_within, ordered, unfitness, told};

use crate::row::Row;
use crate::state_table::StateTable;
use crate::unfit::Unfit;
use std::marker::Model;

/// The fewest states of a fit table.
const MIN_STATES: usize = 2;

/// Up to sixteen rows. A contract sees it as their list. The room is fixed, since there is no heap at attach.
#[derive(Clone, Copy)]
pub struct Gathered {
    each: [Row; 16],
    count: usize,
}

impl Model for Gathered {
    ghost use Rattle.std.specs.Prelude.{List};
    ghost use Rattle.states.specs.declared.row.Row.{Row};

    ghost Value = { List Row };

    ghost use Rattle.states.specs.Gathered.{held, filled, IsFilled, filled_held};

    ghost view = { held };

    ghost invariant = { IsFilled };

    ghost inverse = { filled };

    ghost inverse_ok = { filled_held };
}

impl Gathered {
    /// The rows of a table of at most sixteen states.
    pub(crate) fn from_table<T: StateTable>(table: &T) -> Gathered
        requires { (T.StateTable.table table.now).deepest < 16 }
        ensures { result ≡ rows_of (T.StateTable.table table.now) }
    {
        let mut each = [Row::default(); 16];
        let count = usize::from(table.deepest()) + 1;
        // By `array::from_fn` the proof did not close.
        for state in 0..count {
            each[state] = table.row(state as u8);
        }
        Gathered { each, count }
    }

    /// The rows, from state 0 to the deepest.
    pub(crate) fn rows(&self) -> &[Row]
        ensures value { result.now ≡ self.now }
        ensures few { length result.now ≤ 16 }
    {
        &self.each[0..self.count]
    }

    /// Whether the rows are fit, or what is wrong with them first.
    pub(crate) fn fitness(&self) -> Result<(), Unfit>
        ensures { told result ≡ unfitness self.now }
    {
        let rows = self.rows();
        if rows.len() < MIN_STATES {
            return Err(Unfit::StateCount);
        }
        if !all_within(rows) {
            return Err(Unfit::Number);
        }
        if !is_ordered(rows) {
            return Err(Unfit::Order);
        }
        Ok(())
    }
}

/// Whether each number of the rows is at most its maximum.
fn all_within(rows: &[Row]) -> bool
    ensures { result ≡ all_within rows.now }
{
    rows.iter().all(Row::is_within)
}

/// Whether state 0 is awake, and each state deeper than the one before.
fn is_ordered(rows: &[Row]) -> bool
    ensures { result ≡ ordered rows.now }
{
    let [awake, deeper @ ..] = rows else {
        return true;
    };
    if awake.wake != 0 || awake.latency != 0 {
        return false;
    }
    // By a chain over neighbours the proof did not close.
    let mut above = awake;
    for row in deeper {
        if !row.is_below(above) {
            return false;
        }
        above = row;
    }
    true
}
