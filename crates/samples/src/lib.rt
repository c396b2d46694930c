//! What the sample programs share: the rows of two devices, pseudo-random numbers, an account as plain numbers, the calls
//! of a stuck gap, and what a mistaken rule draws.
#![tactic(auto)]

mod figures;
mod late;
mod random;
mod rows;
mod steps;

pub use figures::Figures;
pub use late::receiver_gap;
pub use random::Random;
pub use rows::{MODEM, RECEIVER};
pub use steps::{PART, STUCK_GAP};
