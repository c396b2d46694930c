//! State tables and what a gap costs: which tables are fit, the envelope state at each tick, the floor of a gap, the
//! energy of a clean gap, and the first tick of each state.
#![tactic(auto)]

mod fit_rows;
mod gathered;
mod row;
mod state_table;
mod unfit;

pub use fit_rows::{FitRows, Totals};
pub use row::Row;
pub use state_table::{StateTable, first_tick, floor};
pub use unfit::Unfit;
