//! Why there is no plan, as one line of text.
ghost use Rattle.std.specs.Prelude.{◌≡◌, Some};
ghost use Rattle.plan.specs.declared.fault.Fault.TheVariants.{Memory, Table};
ghost use Rattle.plan.specs.Faults.{row_words, unfit_words, fault_text};

use states::Unfit;
use std::alloc::AllocError;
use std::error::Error;
use std::fmt;

/// Why a line is no row.
#[derive(Clone, Copy, Debug, PartialEq, Eq)]
pub enum RowFault {
    /// Not three words with one space between each two.
    WordCount,
    /// The first word is no number of 32 bits.
    Power,
    /// The second word is no number of 32 bits.
    Wake,
    /// The third word is no number of 32 bits.
    Latency,
}

/// Why there is no plan.
#[derive(Clone, Copy, PartialEq, Eq)]
pub enum Fault {
    /// A line, counted from 1, that is no row.
    Line(usize, RowFault),
    /// A line past the sixteenth row.
    TooManyRows(usize),
    /// The table is not fit.
    Table(Unfit),
    /// An argument, counted from 1, that is no number of 32 bits.
    Length(usize),
    /// There is no memory left.
    Memory,
}

fn row_words(why: RowFault) -> &'static str
    ensures { result.now ≡ row_words why }
{
    match why {
        RowFault::WordCount => "expected three numbers: power, wake energy, latency",
        RowFault::Power => "the power is not a number of 32 bits",
        RowFault::Wake => "the wake energy is not a number of 32 bits",
        RowFault::Latency => "the latency is not a number of 32 bits",
    }
}

fn unfit_words(why: Unfit) -> &'static str
    ensures { result.now ≡ unfit_words why }
{
    match why {
        Unfit::StateCount => "a table has 2 to 16 states",
        Unfit::Number => "a power is at most 1000000, a wake energy 1000000000, a latency 100000",
        Unfit::Order =>
            "state 0 wakes at no cost, power falls, wake energy rises, latency does not fall",
    }
}

impl fmt::Display for Fault {
    ghost output = { λ x. Some (fault_text x) };

    fn fmt<W: fmt::Write>(&self, f: &mut fmt::Formatter<W>) -> fmt::Result {
        match *self {
            Fault::Line(line, why) => {
                let why = row_words(why);
                write!(f, "line {line}: {why}")
            }
            Fault::TooManyRows(line) => write!(f, "line {line}: a table has at most 16 rows"),
            Fault::Table(why) => {
                let number = why.number();
                let why = unfit_words(why);
                write!(f, "the table is not fit ({number}): {why}")
            }
            Fault::Length(place) => {
                write!(f, "argument {place}: a gap length is a number of 32 bits")
            }
            Fault::Memory => write!(f, "out of memory"),
        }
    }
}

// By hand: a `main` that returns a fault prints it so, and that line is its text.
impl fmt::Debug for Fault {
    fn fmt<W: fmt::Write>(&self, f: &mut fmt::Formatter<W>) -> fmt::Result {
        write!(f, "{self}")
    }
}

impl Error for Fault {}

impl From<AllocError> for Fault {
    ghost from_gives = { λ _ r. r ≡ Memory };

    fn from(_e: AllocError) -> Fault {
        Fault::Memory
    }
}

impl From<Unfit> for Fault {
    ghost from_gives = { λ why r. r ≡ Table why };

    fn from(why: Unfit) -> Fault {
        Fault::Table(why)
    }
}
