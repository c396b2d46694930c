//! What was tried, and how much of it was compared and differs.
use crate::naive::answer::{Answer, Refusal};
use manager::Ticked;

/// How many answers of one kind were compared, and how many differ.
#[derive(Clone, Copy, Debug, Default, PartialEq, Eq)]
pub struct Count {
    pub compared: u32,
    pub differ: u32,
}

/// For each number below 64, how often it came: of a refusal, or of a shape of piles. An array, since a map would need
/// memory to count, and its counts come in this order too.
#[derive(Clone, Copy, Debug, Default, PartialEq, Eq)]
pub struct Numbers {
    pub counts: [u32; 64],
}

/// Everything that was tried.
#[derive(Debug, Default, Drop)]
pub struct Tried {
    /// For each shape of pile, how many were made.
    pub piles: Numbers,
    /// Rows that make no device.
    pub bad_rows: u32,
    /// Commands to devices, with what they answered.
    pub commands: Count,
    pub moves: u32,
    pub refused_moves: Numbers,
    /// Questions to devices.
    pub questions: Count,
    /// Lists of calls, and the answers to the calls.
    pub lists: u32,
    pub answers: Count,
    pub refused_attaches: Numbers,
    pub refused_calls: Numbers,
    pub clean_gaps: u32,
    pub stuck_gaps: u32,
    pub stuck_ticks: u32,
    /// Reports of traces.
    pub reports: Count,
    pub whole: u32,
    pub gap_lines: u32,
    pub jam_lines: u32,
    pub stops: Numbers,
}

/// One more.
pub(crate) fn more(count: &mut u32) {
    *count = count.saturating_add(1);
}

impl Count {
    /// Counts one comparison.
    pub(crate) fn note(&mut self, same: bool) {
        more(&mut self.compared);
        if !same {
            more(&mut self.differ);
        }
    }

    /// Both counts together.
    pub(crate) fn with(self, other: Count) -> Count {
        Count {
            compared: self.compared.saturating_add(other.compared),
            differ: self.differ.saturating_add(other.differ),
        }
    }
}

impl Numbers {
    /// Counts a number once more.
    pub(crate) fn note(&mut self, number: u8) {
        if let Some(count) = self.counts.get_mut(usize::from(number)) {
            more(count);
        }
    }

    /// How often any number came.
    pub(crate) fn sum(&self) -> u32 {
        self.counts
            .iter()
            .fold(0u32, |sum, count| sum.saturating_add(*count))
    }
}

impl Tried {
    /// Counts what a device answered to a hold or a wake.
    pub(crate) fn note_move(&mut self, answer: Result<u32, Refusal>) {
        match answer {
            Ok(_) => more(&mut self.moves),
            Err(refusal) => self.refused_moves.note(refusal.number),
        }
    }

    /// Counts what a manager answered to a call.
    pub(crate) fn note_answer(&mut self, answer: &Result<Answer, Refusal>) {
        match answer {
            Ok(Answer::Closed { gap, .. }) if gap.stuck => more(&mut self.stuck_gaps),
            Ok(Answer::Closed { .. }) => more(&mut self.clean_gaps),
            Ok(Answer::Ticked(Ticked { fault: Some(_), .. })) => more(&mut self.stuck_ticks),
            Ok(_) => {}
            Err(refusal) => self.refused_calls.note(refusal.number),
        }
    }

    /// All comparisons together.
    pub(crate) fn all(&self) -> Count {
        self.commands
            .with(self.questions)
            .with(self.answers)
            .with(self.reports)
    }
}
