//! What is wrong with a cell of a file.
ghost use Rattle.std.specs.Prelude.{◌≡◌};
ghost use Rattle.cells.specs.Faults.{unended};

use std::error::Error;
use std::fmt;

/// The file ends inside this cell, before a comma or CR LF ends it.
#[derive(Clone, Copy, Debug, PartialEq, Eq)]
pub struct CellFault {
    pub line: usize,
    pub column: usize,
}

/// What is wrong with a cell of a line.
#[derive(Clone, Copy, Debug, PartialEq, Eq)]
pub enum Cause {
    /// It does not hold the text that belongs there.
    WrongText,
    /// A number belongs there, and it is not one that a report shows.
    WrongNumber,
    /// The number is not the sum that it should be.
    WrongSum,
    /// The line should have ended before this cell, or ends before it.
    WrongCellCount,
    /// The file ends before the cell does.
    EndOfFile,
}

/// The cell of a line that is at fault, and what is wrong with it.
// Line and column are fields of each type that tells a place: callers read and write them by name, and a struct of the
// two would put one more name into each clause.
#[derive(Clone, Copy, Debug, PartialEq, Eq)]
pub struct LineFault {
    pub line: usize,
    pub column: usize,
    pub cause: Cause,
}

impl From<CellFault> for LineFault {
    ghost from_gives = { λ e r. r ≡ unended e };

    fn from(fault: CellFault) -> LineFault {
        let CellFault { line, column } = fault;
        LineFault {
            line,
            column,
            cause: Cause::EndOfFile,
        }
    }
}

impl fmt::Display for Cause {
    fn fmt<W: fmt::Write>(&self, f: &mut fmt::Formatter<W>) -> fmt::Result {
        f.write_str(match self {
            Cause::WrongText => "wrong text",
            Cause::WrongNumber => "wrong number",
            Cause::WrongSum => "wrong sum",
            Cause::WrongCellCount => "wrong cell count",
            Cause::EndOfFile => "end of file",
        })
    }
}

impl fmt::Display for LineFault {
    fn fmt<W: fmt::Write>(&self, f: &mut fmt::Formatter<W>) -> fmt::Result {
        let LineFault {
            line,
            column,
            cause,
        } = self;
        write!(f, "line {line}, column {column}, {cause}")
    }
}

impl fmt::Display for CellFault {
    fn fmt<W: fmt::Write>(&self, f: &mut fmt::Formatter<W>) -> fmt::Result {
        write!(f, "{}", LineFault::from(*self))
    }
}

impl Error for Cause {}

impl Error for LineFault {}

impl Error for CellFault {}
