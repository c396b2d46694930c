//! What a manager tells, unchanged by it.
ghost use Rattle.std.specs.Prelude.{◌≡◌, ℕ, List};
ghost use Rattle.states.specs.Table.{Table};
ghost use Rattle.devices.specs.Meaning.{Status};
ghost use Rattle.manager.specs.Rules.{Call, figures, shown, turned_away, started, done};
ghost use Rattle.manager.specs.Runs.{history, finally};
ghost use Rattle.manager.specs.Laws.{Laws};
ghost use Rattle.manager.specs.Meaning.{meaning};
ghost use Rattle.manager.specs.Told.{told_unattached};

use super::{Manager, Standing};
use crate::account::Account;
use crate::refusal::Unattached;
use devices::Device;

impl<D: Device> Manager<D> {
    /// The number that it was attached with, which its leases bear.
    pub fn number(&self) -> u16
        ensures { result ≡ (meaning D.Device self.now).number }
    {
        self.number
    }

    /// Why attach was refused, if it was.
    pub fn refusal(&self) -> Option<Unattached>
        ensures { told_unattached result ≡ turned_away (meaning D.Device self.now).condition }
    {
        match self.standing {
            Standing::Shut(why) => Some(why),
            _ => None,
        }
    }

    /// The account. Whatever attach and whatever list of calls led to this manager, the account keeps the laws: the
    /// energy balances, each clean gap costs between its floor and twice its floor, and the clean floor is what the
    /// best clairvoyant schedule of the clean gaps costs.
    pub fn figures(&self) -> Account
        ensures value { shown result ≡ (done (meaning D.Device self.now) figures).answer }
        ensures laws { (number : ℕ) (t : Table) (s : Status) (cs : List Call) → meaning D.Device self.now ≡ finally (started number t s) cs → Laws t (history (started number t s) cs) result }
    {
        self.books.account()
    }
}
