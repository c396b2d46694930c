//! A state table given as text, and its plan: the first tick of each state, and what clean gaps draw.
#![tactic(auto)]

mod fault;
mod lines;
mod row_text;
mod sheet;

pub use fault::{Fault, RowFault};
pub use lines::{first_ticks, gap_line, state_line, total_line};
pub use row_text::{number, parse_row};
pub use sheet::Sheet;
