//! Answers as plain values, so that those of the library and of the naive implementation can be compared.
use devices::Fault;
use manager::{ClosedGap, Ticked};
use samples::Figures;
use std::fmt;

/// A refusal: its number, and the fault if it is for one. The library's is an enum; here the numbers are compared.
#[derive(Clone, Copy, Debug, PartialEq, Eq)]
pub struct Refusal {
    pub number: u8,
    pub jam: Option<Fault>,
}

/// The answer of a manager to a call. The library's shows an account with tallies of its own; these are plain figures.
#[derive(Clone, Copy, Debug, PartialEq, Eq)]
pub enum Answer {
    Ticked(Ticked),
    Closed {
        manager: u16,
        count: u32,
        gap: ClosedGap,
    },
    Released,
    Reported,
    Shown(Figures),
}

/// A gap as text: length, `stuck` or `clean`, energy, floor, the state left and its latency.
#[derive(Clone, Copy)]
pub struct GapText(pub ClosedGap);

impl Refusal {
    /// A refusal that names nothing.
    pub(crate) fn numbered(number: u8) -> Refusal {
        Refusal { number, jam: None }
    }

    /// A refusal for a fault.
    pub(crate) fn jammed(number: u8, fault: Fault) -> Refusal {
        Refusal {
            number,
            jam: Some(fault),
        }
    }
}

/// `stuck` or `clean`.
pub(crate) fn mark(gap: ClosedGap) -> &'static str {
    if gap.stuck { "stuck" } else { "clean" }
}

impl fmt::Display for GapText {
    fn fmt<W: fmt::Write>(&self, f: &mut fmt::Formatter<W>) -> fmt::Result {
        let mark = mark(self.0);
        let ClosedGap {
            length,
            energy,
            floor,
            from,
            latency,
            ..
        } = self.0;
        write!(f, "{length} {mark} {energy} {floor} {from} {latency}")
    }
}
