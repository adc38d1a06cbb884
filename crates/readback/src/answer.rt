//! What a reading answers.
ghost use Rattle.std.specs.Prelude.{◌≡◌};
ghost use Rattle.readback.specs.declared.answer.ReadRefusal.TheVariants.{Faulty};

use cells::LineFault;
use reports::Header;
use std::error::Error;
use std::fmt;

/// A report that was read: what stands above its table, and how many titles it has.
#[derive(Clone, Copy, Debug, PartialEq, Eq)]
pub struct ReadOut<'a> {
    pub header: Header<'a>,
    pub titles: usize,
}

/// Why a file was not read.
#[derive(Clone, Copy, Debug, PartialEq, Eq)]
pub enum ReadRefusal {
    /// A table is too short for 512 titles. This bears the number 11.
    ShortTables,
    /// The file is not a report: the place of its fault, and the cause. This bears the number 12.
    Faulty(LineFault),
}

impl From<LineFault> for ReadRefusal {
    ghost from_gives = { λ e r. r ≡ Faulty e };

    fn from(fault: LineFault) -> ReadRefusal {
        ReadRefusal::Faulty(fault)
    }
}

impl fmt::Display for ReadRefusal {
    fn fmt<W: fmt::Write>(&self, f: &mut fmt::Formatter<W>) -> fmt::Result {
        match self {
            ReadRefusal::ShortTables => write!(f, "the tables are too short"),
            ReadRefusal::Faulty(fault) => write!(f, "{fault}"),
        }
    }
}

impl Error for ReadRefusal {}
