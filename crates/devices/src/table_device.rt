//! The basic make of device: a number, and the rows of its states as the caller has them in bytes.
ghost use Rattle.std.specs.Prelude.{◌≡◌, ◌*◌, min, slice_index};
ghost use Rattle.devices.specs.Rows.{number_at, well_formed, row_table, basic, basic_status, told_rows, told_made, made};

use crate::device::{Device, Part, Refusal};
use states::StateTable;

/// The bytes of a row: power, wake energy and latency, 4 bytes each, the lowest first.
const ROW_BYTES: usize = 12;

/// The most bytes that the rows of a device have.
const MOST_BYTES: usize = 192;

/// The deepest state that a device may have.
const DEEPEST: usize = 15;

/// The number of the refusal of bad rows.
const BAD_ROWS: u8 = 15;

/// The rows are not 12 to 192 bytes and a multiple of 12.
#[derive(Clone, Copy, Debug, PartialEq, Eq)]
pub struct BadRows;

impl BadRows {
    /// The number of the refusal.
    pub fn number(self) -> u8
        ensures { result ≡ told_rows self }
    {
        // One case: it has no discriminant, and a constant is as plain.
        BAD_ROWS
    }
}

/// A basic device over rows that it borrows.
#[derive(Drop)]
pub struct TableDevice<'a> {
    number: u16,
    rows: &'a [u8],
    state: u8,
    held: u32,
    code: u32,
}

impl<'a> TableDevice<'a> {
    /// A device that is awake, never held and sound.
    pub fn new(number: u16, rows: &'a [u8]) -> Result<TableDevice<'a>, BadRows>
        ensures { told_made result ≡ made number rows.now }
    {
        if is_well_formed(rows) {
            Ok(TableDevice {
                number,
                rows,
                state: 0,
                held: 0,
                code: 0,
            })
        } else {
            Err(BadRows)
        }
    }

    /// Where the row of a state begins; a state beyond the deepest has the row of the deepest.
    fn row_place(&self, state: u8) -> u16
        ensures { result ≡ 12 * min state (row_table self.now.rows.now).deepest }
    {
        ROW_BYTES as u16 * state.min(self.deepest()) as u16
    }
}

/// Whether the bytes are one to sixteen rows.
fn is_well_formed(rows: &[u8]) -> bool
    ensures { result ≡ well_formed rows.now }
{
    ROW_BYTES <= rows.len() && rows.len() <= MOST_BYTES && rows.len() % ROW_BYTES == 0
}

/// The byte at a place, and 0 past the end.
fn byte_at(rows: &[u8], place: usize) -> u8
    ensures { result ≡ slice_index rows.now place }
{
    rows.get(place).copied().unwrap_or(0)
}

/// The number in the 4 bytes from a place on, the lowest byte first.
fn number_at(rows: &[u8], place: u16) -> u32
    ensures { result ≡ number_at rows.now place }
{
    let place = usize::from(place);
    // Read at once where the bytes are there: a device is asked for its power at each tick.
    match rows.get(place..place + 4) {
        Some([a, b, c, d]) => u32::from_le_bytes([*a, *b, *c, *d]),
        _ => u32::from_le_bytes([
            byte_at(rows, place),
            byte_at(rows, place + 1),
            byte_at(rows, place + 2),
            byte_at(rows, place + 3),
        ]),
    }
}

impl<'a> StateTable for TableDevice<'a> {
    ghost table = { λ d. row_table d.rows.now };

    fn deepest(&self) -> u8 {
        (self.rows.len() / ROW_BYTES).saturating_sub(1).min(DEEPEST) as u8
    }

    fn power(&self, state: u8) -> u32 {
        number_at(self.rows, self.row_place(state))
    }

    fn wake_energy(&self, state: u8) -> u32 {
        number_at(self.rows, self.row_place(state) + 4)
    }

    fn latency(&self, state: u8) -> u32 {
        number_at(self.rows, self.row_place(state) + 8)
    }
}

impl<'a> Device for TableDevice<'a> {
    ghost status = { λ d. basic_status (basic d) };

    fn state(&self) -> u8 {
        self.state
    }

    fn held_count(&self) -> u32 {
        self.held
    }

    fn settled(&self) -> bool {
        is_well_formed(self.rows) && self.state <= self.deepest()
    }

    fn fault(&self) -> Option<Part> {
        if self.code == 0 {
            None
        } else {
            Some(Part {
                number: self.number,
                code: self.code,
                depth: 0,
            })
        }
    }

    fn hold(&mut self, state: u8) -> Result<u32, Refusal> {
        self.may_hold(state)?;
        self.state = state;
        self.held = self.held.saturating_add(1);
        Ok(self.power(state))
    }

    fn wake(&mut self) -> Result<u32, Refusal> {
        self.may_wake()?;
        let energy = self.wake_energy(self.state);
        self.state = 0;
        Ok(energy)
    }

    fn report(&mut self, number: u16, code: u32) -> bool {
        if self.number == number {
            self.code = code;
            true
        } else {
            false
        }
    }
}
