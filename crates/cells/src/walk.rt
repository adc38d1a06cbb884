//! The walk over a file.
ghost use Rattle.std.specs.Prelude.{◌≡◌, ◌+◌, ◌^◌, ◌<◌, ◌≤◌, length, IfOk};
ghost use Rattle.cells.specs.Cells.{cell_at, cut, cut_by, end_here, end_within, found, is_nil, place_of, spot_of};
ghost use Rattle.cells.specs.Faults.{fault_here};
ghost use Rattle.cells.specs.Places.{seen, start};

use crate::cell::{Cell, Spot};
use crate::fault::{Cause, CellFault, LineFault};
use crate::reader::CellReader;

/// How a cell ends: behind how many bytes, and whether its line ends with it.
// `last` is what `Spot` says of the cell.
#[derive(Clone, Copy, Debug, PartialEq, Eq)]
struct CellEnd {
    length: usize,
    last: bool,
}

/// Whether a cell ends right here; if so, whether its line ends with it.
fn end_here(rest: &[u8]) -> Option<bool>
    ensures { result ≡ end_here rest.now }
{
    match rest {
        [b',', ..] => Some(false),
        [b'\r', b'\n', ..] => Some(true),
        _ => None,
    }
}

/// The first comma or CR LF, which ends the cell.
fn find_end(bytes: &[u8]) -> Option<CellEnd>
    ensures cut { cut bytes.now ≡ cut_by bytes.now result }
    ensures within { end_within (length bytes.now) result }
{
    // By lengths and not by bytes: an end is a byte or two, so each is looked for at the front of what is left.
    for length in 0..bytes.len() {
        if let Some(last) = end_here(&bytes[length..]) {
            return Some(CellEnd { length, last });
        }
    }
    None
}

impl<'a> CellReader<'a> {
    /// A walk that begins at the first byte of the file, in line 1 and column 1.
    pub fn new(file: &'a [u8]) -> CellReader<'a>
        ensures { place_of result ≡ start file.now }
    {
        CellReader {
            file,
            offset: 0,
            line: 1,
            column: 1,
        }
    }

    /// Whether nothing is left of the file.
    pub fn is_done(&self) -> bool
        ensures { result ≡ is_nil (place_of self.now).rest }
    {
        self.file[self.offset..].is_empty()
    }

    /// A fault that lies where the walk stands.
    pub fn fault(&self, cause: Cause) -> LineFault
        ensures { result ≡ fault_here (place_of self.now) cause }
    {
        LineFault {
            line: self.line,
            column: self.column,
            cause,
        }
    }

    /// The next cell. A comma ends it, or CR LF, with which its line ends too.
    pub fn next(&mut self) -> Result<Cell<'a>, CellFault>
        ensures read { seen found result (place_of self.new) ≡ cell_at (place_of self.old) }
        ensures low { IfOk result (λ c. (spot_of c).column + 1 < 2 ^ 64) }
    {
        let line = self.line;
        let column = self.column;
        let rest = &self.file[self.offset..];
        let Some(end) = find_end(rest) else {
            return Err(CellFault { line, column });
        };
        let bytes = &rest[..end.length];
        let last = end.last;
        if last {
            self.offset += end.length + 2;
            self.line = line + 1;
            self.column = 1;
        } else {
            self.offset += end.length + 1;
            self.column = column + 1;
        }
        Ok(Cell::of(bytes, Spot { line, column, last }))
    }
}
