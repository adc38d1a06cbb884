//! What belongs in a cell. Each call reads the next cell, and `last` says whether the line should end with it.
ghost use Rattle.std.specs.Prelude.{◌≡◌};
ghost use Rattle.cells.specs.Cells.{cell_at, place_of};
ghost use Rattle.cells.specs.Judged.{JudgedBy, date_at, issn_at, note_at, number_at, sum_at, text_at, word_at};
ghost use Rattle.cells.specs.Places.{seen};

use crate::cell::Cell;
use crate::date::read_date;
use crate::fault::{Cause, LineFault};
use crate::reader::CellReader;
use reports::Date;
use texts::is_text;
use titles::{Issn, read_issn};

/// Reads a cell by what the judge makes of it. The judge's fault counts before that of a line that ends wrongly.
fn judged_cell<'a, T: Copy, F: FnOnce(Cell<'a>) -> Result<T, Cause>>(
    cells: &mut CellReader<'a>,
    last: bool,
    judge: F,
) -> Result<T, LineFault>
    requires { F.IsAlwaysCallable judge }
    ensures { JudgedBy (F.post judge) last (cell_at (place_of cells.old)) result (place_of cells.new) }
{
    let cell = cells.next()?;
    let spot = cell.spot();
    let value = judge(cell).map_err(|cause| spot.fault(cause))?;
    spot.close(last)?;
    Ok(value)
}

/// Reads a cell that holds just this text, or is blank where the text is empty.
pub fn word_cell(cells: &mut CellReader<'_>, word: &[u8], last: bool) -> Result<(), LineFault>
    ensures { seen (λ x. x) result (place_of cells.new) ≡ word_at word.now last (place_of cells.old) }
{
    judged_cell(cells, last, |cell| {
        if cell.bytes() == word {
            Ok(())
        } else {
            Err(Cause::WrongText)
        }
    })
}

/// Reads a cell that holds a text.
pub fn text_cell<'a>(cells: &mut CellReader<'a>, last: bool) -> Result<&'a [u8], LineFault>
    ensures { seen (λ b. b.now) result (place_of cells.new) ≡ text_at last (place_of cells.old) }
{
    judged_cell(cells, last, |cell| {
        let bytes = cell.bytes();
        if is_text(bytes) {
            Ok(bytes)
        } else {
            Err(Cause::WrongText)
        }
    })
}

/// Reads a cell that is blank or holds a text.
pub fn note_cell<'a>(cells: &mut CellReader<'a>, last: bool) -> Result<&'a [u8], LineFault>
    ensures { seen (λ b. b.now) result (place_of cells.new) ≡ note_at last (place_of cells.old) }
{
    judged_cell(cells, last, |cell| {
        let bytes = cell.bytes();
        if bytes.is_empty() || is_text(bytes) {
            Ok(bytes)
        } else {
            Err(Cause::WrongText)
        }
    })
}

/// Reads a cell that is blank or holds a right ISSN.
pub fn issn_cell(cells: &mut CellReader<'_>, last: bool) -> Result<Option<Issn>, LineFault>
    ensures { seen (λ x. x) result (place_of cells.new) ≡ issn_at last (place_of cells.old) }
{
    judged_cell(cells, last, |cell| match cell.bytes() {
        [] => Ok(None),
        bytes => read_issn(bytes).map(Some).map_err(|_| Cause::WrongText),
    })
}

/// Reads a cell that holds a real date of 2000 to 2099, as yyyy-mm-dd.
pub fn date_cell(cells: &mut CellReader<'_>, last: bool) -> Result<Date, LineFault>
    ensures { seen (λ x. x) result (place_of cells.new) ≡ date_at last (place_of cells.old) }
{
    judged_cell(
        cells,
        last,
        |cell| read_date(cell.bytes()).ok_or(Cause::WrongText),
    )
}

/// Reads a cell that holds a number.
pub fn number_cell(cells: &mut CellReader<'_>, last: bool) -> Result<u32, LineFault>
    ensures { seen (λ x. x) result (place_of cells.new) ≡ number_at last (place_of cells.old) }
{
    judged_cell(cells, last, |cell| cell.number().ok_or(Cause::WrongNumber))
}

/// Reads a cell that holds what is missing from `part` to `whole`.
pub fn sum_cell(
    cells: &mut CellReader<'_>,
    part: u32,
    whole: u64,
    last: bool,
) -> Result<u32, LineFault>
    ensures { seen (λ x. x) result (place_of cells.new) ≡ sum_at part whole last (place_of cells.old) }
{
    judged_cell(cells, last, |cell| match cell.number() {
        None => Err(Cause::WrongNumber),
        Some(number) if u64::from(part) + u64::from(number) != whole => Err(Cause::WrongSum),
        Some(number) => Ok(number),
    })
}
