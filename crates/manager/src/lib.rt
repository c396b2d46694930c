//! The power-down manager of one device: six calls, one energy account, and the laws that hold after every list of
//! calls.
#![tactic(auto)]

mod account;
mod books;
mod lease;
mod manager;
mod refusal;
mod script;

pub use account::{Account, Tallies, Tally};
pub use lease::Lease;
pub use manager::{ClosedGap, HandedBack, Manager, Ticked};
pub use refusal::{Refusal, Unattached};
pub use script::{Reply, Step, account_after, replies_to};
