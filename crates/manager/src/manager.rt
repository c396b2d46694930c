//! The manager, and what its calls answer.
use crate::books::Books;
use crate::lease::Lease;
use crate::refusal::{Refusal, Unattached};
use devices::Fault;
use states::FitRows;

/// What a tick held, what it drew, and the fault that held its move up, if one did.
#[derive(Clone, Copy, Debug, PartialEq, Eq)]
pub struct Ticked {
    pub state: u8,
    pub energy: u32,
    pub fault: Option<Fault>,
}

/// The gap that a request closed.
#[derive(Clone, Copy, Debug, PartialEq, Eq)]
pub struct ClosedGap {
    /// Its ticks.
    pub length: u32,
    /// Its energy, with the wake energy.
    pub energy: u64,
    /// Its floor.
    pub floor: u64,
    /// Whether it is stuck.
    pub stuck: bool,
    /// The state that the device left.
    pub from: u8,
    /// The latency of that state.
    pub latency: u32,
}

/// A lease that was not taken back, and why.
pub struct HandedBack {
    pub lease: Lease,
    pub why: Refusal,
}

/// What became of attach. Two of three cases hold rows, so neither an `Option` nor a `Result` says it.
#[derive(Clone, Copy)]
pub enum Standing {
    /// The device was not taken on.
    Shut(Unattached),
    /// It was, with the rows of its table; the manager is idle.
    Idle(FitRows),
    /// The same, and a lease is out.
    Busy(FitRows),
}

/// A device taken on, or turned away, and its account.
#[derive(Drop)]
pub struct Manager<D> {
    number: u16,
    device: D,
    standing: Standing,
    books: Books,
}

mod calls;
mod questions;
