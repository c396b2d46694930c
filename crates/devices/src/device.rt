//! What a device is: what it means beside its state table, and which commands are refused, for every make of device alike.
ghost use Rattle.std.specs.Prelude.{◌≡◌, ◌≤◌, true};
ghost use Rattle.std.specs.Result.{result_err};
ghost use Rattle.states.specs.Table.{at};
ghost use Rattle.devices.specs.FaultWords.{fault_words};
ghost use Rattle.devices.specs.Meaning.{Status, told, told_bar, told_reply, fault_of, jam_between, hold_refusal, wake_refusal, held, woken, reply, left, bears, reported, layered};

use states::StateTable;
use std::fmt;

/// A basic device as its pile shows it: its number, its fault code (0 if sound) and the layers above it, 255 at most.
#[derive(Clone, Copy, Debug, PartialEq, Eq)]
pub struct Part {
    pub number: u16,
    pub code: u32,
    pub depth: u8,
}

impl Part {
    /// The part as seen from one layer further up.
    pub(crate) fn layered(self) -> Part
        ensures { result ≡ layered self }
    {
        Part {
            depth: self.depth.saturating_add(1),
            ..self
        }
    }
}

/// A move that a faulty part holds up: the part, and the states from and to.
#[derive(Clone, Copy, Debug, PartialEq, Eq)]
pub struct Fault {
    pub number: u16,
    pub code: u32,
    pub depth: u8,
    pub from: u8,
    pub to: u8,
}

/// Its five numbers, with a space between each two.
impl fmt::Display for Fault {
    ghost use Rattle.std.specs.Prelude.{Some};

    ghost output = { λ f. Some (fault_words f) };

    fn fmt<W: fmt::Write>(&self, f: &mut fmt::Formatter<W>) -> fmt::Result {
        let Fault {
            number,
            code,
            depth,
            from,
            to,
        } = *self;
        write!(f, "{number} {code} {depth} {from} {to}")
    }
}

/// Why a command is refused.
#[derive(Clone, Copy, Debug, PartialEq, Eq)]
pub enum Refusal {
    Unsettled,
    OutOfRange,
    Jammed(Fault),
}

impl Refusal {
    /// The number of the refusal.
    pub fn number(self) -> u8
        ensures { result ≡ (told self).number }
    {
        // A case with values has no number of its own.
        match self {
            Refusal::Unsettled => 41,
            Refusal::OutOfRange => 42,
            Refusal::Jammed(_) => 43,
        }
    }
}

/// A state table that can be commanded. A refused command changes nothing, and no command changes the table.
pub trait Device: StateTable {
    ghost status: { Self → Status };

    /// The state that it is in.
    fn state(&self) -> u8
        ensures { result ≡ (status self.now).state };

    /// The ticks held so far, 4,294,967,295 at most.
    fn held_count(&self) -> u32
        ensures { result ≡ (status self.now).held };

    /// Whether it stands where commands may move it; its state is then not beyond the deepest.
    fn settled(&self) -> bool
        ensures value { result ≡ (status self.now).settled }
        ensures within { result ≡ true → (status self.now).state ≤ (Self.StateTable.table self.now).deepest };

    /// The first part with a code other than 0.
    fn fault(&self) -> Option<Part>
        ensures { result ≡ fault_of (status self.now).parts };

    /// Whether nothing refuses to hold a state. The refusals are tried in this order, for every make of device.
    fn may_hold(&self, to: u8) -> Result<(), Refusal>
        ensures { told_bar (result_err result) ≡ hold_refusal (Self.StateTable.table self.now) (status self.now) to }
    {
        if !self.settled() {
            return Err(Refusal::Unsettled);
        }
        let state = self.state();
        if to < state || to > self.deepest() {
            return Err(Refusal::OutOfRange);
        }
        if to == state {
            Ok(())
        } else {
            pass(state, to, self.fault())
        }
    }

    /// Whether nothing refuses to wake it, tried in the same order.
    fn may_wake(&self) -> Result<(), Refusal>
        ensures { told_bar (result_err result) ≡ wake_refusal (status self.now) }
    {
        let state = self.state();
        if !self.settled() {
            Err(Refusal::Unsettled)
        } else if state == 0 {
            Ok(())
        } else {
            pass(state, 0, self.fault())
        }
    }

    /// Holds a state, as deep as the present one or deeper, for a tick. Answers the power of that state.
    fn hold(&mut self, state: u8) -> Result<u32, Refusal>
        ensures value { told_reply result ≡ reply (hold_refusal (Self.StateTable.table self.old) (status self.old) state) (at (Self.StateTable.table self.old) state).power }
        ensures after { status self.new ≡ left (hold_refusal (Self.StateTable.table self.old) (status self.old) state) (status self.old) (held (status self.old) state) }
        ensures same { Self.StateTable.table self.new ≡ Self.StateTable.table self.old };

    /// Goes to state 0. Answers the wake energy of the state that it left.
    fn wake(&mut self) -> Result<u32, Refusal>
        ensures value { told_reply result ≡ reply (wake_refusal (status self.old)) (at (Self.StateTable.table self.old) (status self.old).state).wake }
        ensures after { status self.new ≡ left (wake_refusal (status self.old)) (status self.old) (woken (status self.old)) }
        ensures same { Self.StateTable.table self.new ≡ Self.StateTable.table self.old };

    // Number and code are two plain numbers in every layer, as in a trace: a type for both would say no more.

    /// Sets the code of each part with that number. Answers whether there was one.
    fn report(&mut self, number: u16, code: u32) -> bool
        ensures value { result ≡ bears number (status self.old).parts }
        ensures after { status self.new ≡ reported (status self.old) number code }
        ensures same { Self.StateTable.table self.new ≡ Self.StateTable.table self.old };
}

/// A move between two states that differ, which a fault holds up.
fn pass(from: u8, to: u8, fault: Option<Part>) -> Result<(), Refusal>
    ensures { told_bar (result_err result) ≡ jam_between «from» to fault }
{
    match fault {
        Some(part) => Err(Refusal::Jammed(Fault {
            number: part.number,
            code: part.code,
            depth: part.depth,
            from,
            to,
        })),
        None => Ok(()),
    }
}
