//! The library's answers, as plain values.
use crate::naive::answer::{Answer, Refusal};
use manager::Reply;
use samples::Figures;

// Two types of the library, with no trait over both: so the two bodies below are alike.

/// A refusal of a device.
impl From<devices::Refusal> for Refusal {
    fn from(refusal: devices::Refusal) -> Refusal {
        let number = refusal.number();
        match refusal {
            devices::Refusal::Jammed(fault) => Refusal::jammed(number, fault),
            _ => Refusal::numbered(number),
        }
    }
}

/// A refusal of a manager.
impl From<manager::Refusal> for Refusal {
    fn from(refusal: manager::Refusal) -> Refusal {
        let number = refusal.number();
        match refusal {
            manager::Refusal::Jammed(fault) => Refusal::jammed(number, fault),
            _ => Refusal::numbered(number),
        }
    }
}

/// The answer of a manager to an accepted call.
impl From<Reply> for Answer {
    fn from(reply: Reply) -> Answer {
        match reply {
            Reply::Ticked(ticked) => Answer::Ticked(ticked),
            Reply::Closed {
                manager,
                count,
                gap,
            } => Answer::Closed {
                manager,
                count,
                gap,
            },
            Reply::Released => Answer::Released,
            Reply::Reported => Answer::Reported,
            Reply::Shown(account) => Answer::Shown(Figures::from(account)),
        }
    }
}

/// The answer of a manager to a call.
pub(crate) fn answer_of(reply: Result<Reply, manager::Refusal>) -> Result<Answer, Refusal> {
    reply.map(Answer::from).map_err(Refusal::from)
}
