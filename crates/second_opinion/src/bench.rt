//! What every trial works with: memory, pseudo-random numbers, the counts, and what trials on piles are about.
use crate::tried::Tried;
use samples::Random;
use std::alloc::Global;

/// What a trial on a pile is about.
#[derive(Clone, Copy, Debug, PartialEq, Eq)]
pub enum About {
    /// Commands to devices, which may be in any state before they are piled.
    Commands,
    /// Lists of calls, on devices that are mostly as they were made.
    Calls,
}

/// What every trial works with.
#[derive(Debug, Drop)]
pub struct Bench {
    pub heap: Global,
    pub random: Random,
    pub tried: Tried,
    pub about: About,
}
