//! Rows as they are read: a sheet is a state table.
ghost use Rattle.std.specs.Prelude.{◌≡◌, ◌≤◌, [], length};
ghost use Rattle.states.specs.Table.{at};
ghost use Rattle.plan.specs.Sheets.{sheet_table, Added, Blamed};

use crate::fault::Fault;
use crate::row_text::parse_row;
use states::{Row, StateTable};
use std::alloc::Global;
use std::marker::Model;

/// The most rows of a sheet.
// As in `traces`, on which this crate does not depend.
const MAX_ROWS: usize = 16;

/// Up to sixteen rows. A contract sees it as their list.
#[derive(Drop)]
pub struct Sheet {
    rows: Vec<Row>,
}

impl Model for Sheet {
    ghost use Rattle.std.specs.Prelude.{◌≤◌, List, vec_items, vec_len};
    ghost use Rattle.states.specs.declared.row.Row.{Row};

    ghost Value = { List Row };

    ghost view = { λ s. vec_items s.rows };

    ghost invariant = { λ s. vec_len s.rows ≤ 16 };
}

impl Sheet {
    /// A sheet with no rows.
    pub fn new(heap: Global) -> Sheet
        ensures { result ≡ [] }
    {
        Sheet {
            rows: Vec::new(heap),
        }
    }

    /// Adds the row of a line of text. Refused, the sheet stays as it was; a row past the sixteenth is refused before
    /// its text is looked at.
    pub fn add(&mut self, line: usize, text: &str) -> Result<(), Fault>
        ensures added { Added line text.now self.old self.new result }
        ensures why { Blamed text.now result }
        ensures few { length self.new ≤ 16 }
    {
        if self.rows.len() >= MAX_ROWS {
            return Err(Fault::TooManyRows(line));
        }
        let row = parse_row(text).map_err(|why| Fault::Line(line, why))?;
        self.rows.push(row).map_err(|_| Fault::Memory)
    }

    /// The row of a state; the deepest where the state lies beyond it.
    pub fn row(&self, state: u8) -> Row
        ensures { result ≡ at (sheet_table self.now) state }
    {
        let place = self.deepest().min(state);
        self.rows
            .get(usize::from(place))
            .copied()
            .unwrap_or_default()
    }
}

impl StateTable for Sheet {
    ghost table = { sheet_table };

    fn deepest(&self) -> u8
        ensures value { result ≡ (sheet_table self.now).deepest }

        // Each sheet is so short; here a caller learns it.
        ensures few { length self.now ≤ 16 }
    {
        self.rows.len().saturating_sub(1) as u8
    }

    fn power(&self, state: u8) -> u32 {
        self.row(state).power
    }

    fn wake_energy(&self, state: u8) -> u32 {
        self.row(state).wake
    }

    fn latency(&self, state: u8) -> u32 {
        self.row(state).latency
    }
}
