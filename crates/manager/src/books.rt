//! The account with what bounds it, so that no sum can wrap.
ghost use Rattle.std.specs.Prelude.{◌≡◌, ◌+◌, ◌*◌, ◌<◌, ◌≤◌};
ghost use Rattle.manager.specs.Tallying.{Within};
ghost use Rattle.manager.specs.Charges.{empty, busy_charge, open_charge, settle, marked};

use crate::account::Account;

/// An account that stays within bounds, whatever a device answers: a tick and a wake-up add at most 32 bits of energy
/// each, and a floor is at most 1,000,000 units for each tick of its gap.
#[derive(Clone, Copy)]
pub struct Books {
    account: Account,
    ghost ticks_limit: { account.ticks ≤ 1000000 },
    ghost gaps_limit: { account.gaps ≤ 1000000 },
    ghost lengths: { account.length ≤ account.ticks },
    ghost energies: { account.clean + account.stuck + account.busy + account.pending ≤ 4294967295 * account.ticks + 4294967295 * account.gaps },
    ghost floors: { account.floor + 1000000 * account.length ≤ 1000000 * account.ticks },
    ghost tallied: { Within account.tallies account.ticks account.gaps },
}

impl Books {
    /// Empty books.
    pub(crate) fn new() -> Books
        ensures { result.account ≡ empty }
    {
        Books {
            account: Account::default(),
        }
    }

    /// The account as it stands.
    pub(crate) fn account(&self) -> Account
        ensures { result ≡ self.now.account }
    {
        self.account
    }

    // Room for a tick is asked for and not a fact of the type: after the last tick there is none.

    /// Charges a busy tick, which holds state 0.
    pub(crate) fn busy_tick(&mut self, energy: u32)
        requires { self.old.account.ticks < 1000000 }
        ensures { self.new.account ≡ busy_charge self.old.account energy }
    {
        self.account.busy += u64::from(energy);
        self.account.tallies.tick(0);
        self.account.ticks += 1;
    }

    /// Charges a tick of the open gap, and marks the gap if a fault held its move up.
    pub(crate) fn open_tick(&mut self, state: u8, energy: u32, jammed: bool)
        requires { self.old.account.ticks < 1000000 }
        ensures { self.new.account ≡ open_charge self.old.account state energy jammed }
    {
        self.account.pending += u64::from(energy);
        self.account.length += 1;
        self.account.mark = self.account.mark || jammed;
        self.account.tallies.tick(state);
        self.account.ticks += 1;
    }

    /// Closes the gap with a wake-up from a state, and answers the gap's energy.
    pub(crate) fn close(&mut self, from: u8, wake: u32, least: u64) -> u64
        requires few_gaps { self.old.account.gaps < 1000000 }
        requires low_floor { least ≤ 1000000 * self.old.account.length }
        ensures energy { result ≡ self.old.account.pending + wake }
        ensures after { self.new.account ≡ settle self.old.account «from» (self.old.account.pending + wake) least }
    {
        self.account.tallies.wake(from);
        let energy = self.account.pending + u64::from(wake);
        if self.account.mark {
            self.account.stuck += energy;
        } else {
            self.account.clean += energy;
            self.account.floor += least;
        }
        self.account.pending = 0;
        self.account.length = 0;
        self.account.mark = false;
        self.account.gaps += 1;
        energy
    }

    /// Marks the open gap stuck.
    pub(crate) fn mark(&mut self)
        ensures { self.new.account ≡ marked self.old.account }
    {
        self.account.mark = true;
    }
}
