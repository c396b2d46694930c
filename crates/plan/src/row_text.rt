//! Rows and numbers from text.
ghost use Rattle.std.specs.Prelude.{ℕ, IfErr, MatchOption, MatchResult};
ghost use Rattle.plan.specs.Text.{Number, RowLine, IsRowFault};

use crate::fault::RowFault;
use states::Row;

/// The number of 32 bits that a word is the decimal text of.
pub fn number(word: &str) -> Option<u32>
    ensures { MatchOption result ((n : ℕ) → Number word.now n → ⊥) (Number word.now) }
{
    word.parse().ok()
}

/// The row of a line of three numbers with one space between each two.
pub fn parse_row(line: &str) -> Result<Row, RowFault>
    ensures row { MatchResult result (RowLine line.now) (λ _. (row : Row) → RowLine line.now row → ⊥) }
    ensures why { IfErr result (IsRowFault line.now) }
{
    let (first, rest) = line.split_once(' ').ok_or(RowFault::WordCount)?;
    let (second, third) = rest.split_once(' ').ok_or(RowFault::WordCount)?;
    let power = number(first).ok_or(RowFault::Power)?;
    let wake = number(second).ok_or(RowFault::Wake)?;
    let latency = number(third).ok_or(RowFault::Latency)?;
    Ok(Row {
        power,
        wake,
        latency,
    })
}
