//! Why a call is refused.
ghost use Rattle.std.specs.Prelude.{◌≡◌};
ghost use Rattle.manager.specs.Told.{unattached_number, told, risen};
ghost use Rattle.manager.specs.declared.refusal.Unattached.TheVariants as UnattachedIs;

use devices::Fault;
use states::Unfit;

/// Why a device is not taken on.
#[derive(Clone, Copy, Debug, PartialEq, Eq)]
pub enum Unattached {
    /// It is unsettled or not in state 0.
    NotAwake,
    /// Its table is not fit.
    Unfit(Unfit),
}

impl Unattached {
    /// The number of the refusal.
    pub fn number(self) -> u8
        ensures { result ≡ unattached_number self }
    {
        // A case with values has no number of its own.
        match self {
            Unattached::NotAwake => 11,
            Unattached::Unfit(why) => why.number(),
        }
    }
}

/// A table that is not fit keeps its device from being taken on.
impl From<Unfit> for Unattached {
    ghost from_gives = { λ e r. r ≡ UnattachedIs.Unfit e };

    fn from(e: Unfit) -> Unattached {
        Unattached::Unfit(e)
    }
}

/// Why a call is refused.
#[derive(Clone, Copy, Debug, PartialEq, Eq)]
pub enum Refusal {
    /// Attach was refused.
    Attach(Unattached),
    /// The manager is busy.
    Busy,
    /// The manager is not busy, or waits for another lease.
    NotThisLease,
    /// A million ticks were accepted.
    TickLimit,
    /// A million gaps were closed.
    GapLimit,
    /// No part of the device bears the number.
    NoSuchPart,
    /// A fault holds the wake-up up.
    Jammed(Fault),
    /// The device is unsettled.
    Unsettled,
    /// The device was to hold a state out of its range.
    OutOfRange,
}

impl Refusal {
    /// The number of the refusal.
    pub fn number(self) -> u8
        ensures { result ≡ (told self).number }
    {
        // A case with values has no number of its own.
        match self {
            Refusal::Attach(why) => why.number(),
            Refusal::Busy => 21,
            Refusal::NotThisLease => 22,
            Refusal::TickLimit => 23,
            Refusal::GapLimit => 24,
            Refusal::NoSuchPart => 25,
            Refusal::Jammed(_) => 31,
            Refusal::Unsettled => 41,
            Refusal::OutOfRange => 42,
        }
    }
}

/// A device's refusal passed up: a fault becomes the manager's own refusal with all that it names.
impl From<devices::Refusal> for Refusal {
    ghost from_gives = { λ e r. r ≡ risen e };

    fn from(e: devices::Refusal) -> Refusal {
        match e {
            devices::Refusal::Jammed(fault) => Refusal::Jammed(fault),
            devices::Refusal::Unsettled => Refusal::Unsettled,
            devices::Refusal::OutOfRange => Refusal::OutOfRange,
        }
    }
}
