//! An account as plain numbers, so that those of different managers can be compared.
ghost use Rattle.samples.specs.Told.{IsTold};

use manager::{Account, Tally};

/// An account as plain numbers, with the figures of each of sixteen states.
#[derive(Clone, Copy, Debug, Default, PartialEq, Eq)]
pub struct Figures {
    pub clean: u64,
    pub floor: u64,
    pub stuck: u64,
    pub busy: u64,
    pub pending: u64,
    pub length: u32,
    pub mark: bool,
    pub ticks: u32,
    pub gaps: u32,
    pub states: [Tally; 16],
}

impl From<Account> for Figures {
    ghost from_gives = { λ account figures. IsTold account figures };

    fn from(account: Account) -> Figures {
        let mut states = [Tally::default(); 16];
        // A loop over state numbers: with `array::from_fn` the proof of what stands at each place did not close.
        for state in 0u8..16 {
            states[usize::from(state)] = account.tallies.of(state);
        }
        Figures {
            clean: account.clean,
            floor: account.floor,
            stuck: account.stuck,
            busy: account.busy,
            pending: account.pending,
            length: account.length,
            mark: account.mark,
            ticks: account.ticks,
            gaps: account.gaps,
            states,
        }
    }
}
