//! A whole list of calls worked through a freshly attached manager.
ghost use Rattle.std.specs.Prelude.{◌≡◌, map, IfOk};
ghost use Rattle.manager.specs.Rules.{started, done};
ghost use Rattle.manager.specs.Runs.{history, answers, finally};
ghost use Rattle.manager.specs.Laws.{Laws};
ghost use Rattle.manager.specs.Meaning.{meaning};
ghost use Rattle.manager.specs.Script.{call_of, answer_of};

use crate::account::Account;
use crate::lease::Lease;
use crate::manager::{ClosedGap, HandedBack, Manager, Ticked};
use crate::refusal::Refusal;
use devices::Device;
use std::alloc::{AllocError, Global};

/// A call by its numbers. A release bears whatever two numbers a lease may bear; they are no `Lease`, which `request` alone
/// makes. It is data and no closure, so that a law can speak of lists of calls.
#[derive(Clone, Copy, Debug, PartialEq, Eq)]
pub enum Step {
    Tick,
    Request,
    Release { manager: u16, count: u32 },
    Report { number: u16, code: u32 },
    Figures,
}

/// What an accepted call answered. A lease is told by its two numbers.
#[derive(Clone, Copy, Debug, PartialEq, Eq)]
pub enum Reply {
    Ticked(Ticked),
    Closed {
        manager: u16,
        count: u32,
        gap: ClosedGap,
    },
    Released,
    Reported,
    Shown(Account),
}

impl<D: Device> Manager<D> {
    /// Makes a call. A lease goes no further than its two numbers.
    fn take(&mut self, step: Step) -> Result<Reply, Refusal>
        ensures value { answer_of result ≡ (done (meaning D.Device self.old) (call_of step)).answer }
        ensures after { meaning D.Device self.new ≡ (done (meaning D.Device self.old) (call_of step)).after }
    {
        // Calls are data, which the law over every list of calls speaks of, and no closures.
        match step {
            Step::Tick => Ok(Reply::Ticked(self.tick()?)),
            Step::Request => {
                let (lease, gap) = self.request()?;
                let (manager, count) = lease.spend();
                Ok(Reply::Closed {
                    manager,
                    count,
                    gap,
                })
            }
            Step::Release { manager, count } => match self.release(Lease::new(manager, count)) {
                Ok(()) => Ok(Reply::Released),
                Err(HandedBack { lease, why }) => {
                    lease.spend();
                    Err(why)
                }
            },
            Step::Report { number, code } => {
                self.report(number, code)?;
                Ok(Reply::Reported)
            }
            Step::Figures => Ok(Reply::Shown(self.figures())),
        }
    }
}

/// The account after a list of calls on a freshly attached manager. Whatever the device, the number and the list, with
/// repeats and refusals and whatever numbers are handed in, the account keeps the laws.
pub fn account_after<D: Device + Drop>(number: u16, device: D, steps: &[Step]) -> Account
    ensures value { result ≡ (finally (started number (D.StateTable.table device) (D.Device.status device)) (map call_of steps.now)).account }
    ensures laws { Laws (D.StateTable.table device) (history (started number (D.StateTable.table device) (D.Device.status device)) (map call_of steps.now)) result }
{
    let mut manager = Manager::attach(number, device);
    for step in steps {
        let _ = manager.take(*step);
    }
    manager.figures()
}

/// What a freshly attached manager answers to each call of a list.
pub fn replies_to<D: Device + Drop>(
    heap: Global,
    number: u16,
    device: D,
    steps: &[Step],
) -> Result<Vec<Result<Reply, Refusal>>, AllocError>
    ensures { IfOk result (λ replies. map answer_of replies.items ≡ answers (started number (D.StateTable.table device) (D.Device.status device)) (map call_of steps.now)) }
{
    let mut manager = Manager::attach(number, device);
    let mut replies = Vec::new(heap);
    for step in steps {
        replies.push(manager.take(*step))?;
    }
    Ok(replies)
}
