//! A cell, as the part of the file that it is.
ghost use Rattle.std.specs.Prelude.{◌≡◌, ◌+◌, ◌^◌, ◌<◌};
ghost use Rattle.cells.specs.Cells.{body_of, found, found_in, spot_of, value_of};
ghost use Rattle.cells.specs.Faults.{closed, fault_at};

use crate::fault::{Cause, LineFault};
use crate::number::read_number;

/// Where a cell stands, and whether it ends its line. Lines and columns, which go by cells, count from 1.
// `last` is a `bool`, since it is held against what a caller reckons for the cell that it wants.
#[derive(Clone, Copy, Debug, PartialEq, Eq)]
pub struct Spot {
    pub line: usize,
    pub column: usize,
    pub last: bool,
}

/// A cell of a file, with its place.
// The form is fixed: blank, text and number, each with its part of the file and its place.
#[derive(Clone, Copy, Debug, PartialEq, Eq)]
pub enum Cell<'a> {
    Blank {
        spot: Spot,
    },
    /// A number as a report shows it: digits without a leading zero, at most 1,000,000,000.
    Number {
        bytes: &'a [u8],
        value: u32,
        spot: Spot,
    },
    /// Any other bytes, fit for a text or not.
    Text {
        bytes: &'a [u8],
        spot: Spot,
    },
}

impl<'a> Cell<'a> {
    /// The cell that these bytes are.
    pub(crate) fn of(bytes: &'a [u8], spot: Spot) -> Cell<'a>
        ensures { found result ≡ found_in bytes.now spot }
    {
        match read_number(bytes) {
            Some(value) => Cell::Number { bytes, value, spot },
            None if bytes.is_empty() => Cell::Blank { spot },
            None => Cell::Text { bytes, spot },
        }
    }

    /// The bytes that stand in it.
    pub fn bytes(self) -> &'a [u8]
        ensures { result.now ≡ body_of self.entry }
    {
        match self {
            Cell::Blank { .. } => &[],
            Cell::Number { bytes, .. } | Cell::Text { bytes, .. } => bytes,
        }
    }

    /// The number that it shows, if it is one.
    pub(crate) fn number(self) -> Option<u32>
        ensures { result ≡ value_of self.entry }
    {
        match self {
            Cell::Number { value, .. } => Some(value),
            Cell::Blank { .. } | Cell::Text { .. } => None,
        }
    }

    /// Where it stands.
    pub fn spot(self) -> Spot
        ensures { result ≡ spot_of self.entry }
    {
        match self {
            Cell::Blank { spot } | Cell::Number { spot, .. } | Cell::Text { spot, .. } => spot,
        }
    }
}

impl Spot {
    /// A fault that lies here.
    pub(crate) fn fault(self, cause: Cause) -> LineFault
        ensures { result ≡ fault_at self cause }
    {
        LineFault {
            line: self.line,
            column: self.column,
            cause,
        }
    }

    /// Refuses a cell that ends its line where another one should follow, or does not end it where it should.
    ///
    /// The fault lies at the next cell: the first one that is missing, or that is too many.
    pub(crate) fn close(self, last: bool) -> Result<(), LineFault>
        requires { self.column + 1 < 2 ^ 64 }
        ensures { result ≡ closed last self }
    {
        if self.last == last {
            return Ok(());
        }
        let next = Spot {
            column: self.column + 1,
            ..self
        };
        Err(next.fault(Cause::WrongCellCount))
    }
}
