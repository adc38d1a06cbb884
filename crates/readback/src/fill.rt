//! The second pass: the lent tables are filled from a file that was judged.
ghost use Rattle.std.specs.Prelude.{◌≡◌, true};
ghost use Rattle.cells.specs.Cells.{place_of};
ghost use Rattle.readback.specs.Answers.{held_by, roomy};
ghost use Rattle.readback.specs.Lent.{SameLent};
ghost use Rattle.readback.specs.Passes.{filled_at, filled_row, filling, new_filling, over, out_filled};

use crate::answer::ReadOut;
use crate::judge::MOST_TITLES;
use crate::line::read_title;
use crate::tables::LentTables;
use crate::top::{figure_count, read_top};
use cells::{Cause, CellReader, LineFault};
use columns::ColumnScheme;
use reports::Header;

/// Fills the tables with the titles' lines to the end of the file, and returns how many there are.
// `roomy` is of the tables under a scheme: a ghost field of theirs would have to hold the scheme.
fn fill_titles<'a, S: ColumnScheme>(
    cells: &mut CellReader<'a>,
    scheme: &S,
    platform: &[u8],
    tables: &mut LentTables<'_, 'a>,
) -> Result<usize, LineFault>
    requires { roomy (S.ColumnScheme.layout scheme.now) (held_by tables.old) ≡ true }
    ensures same { SameLent tables.old tables.new }
    ensures filled { filling (held_by tables.new) result ≡ over (filled_row (S.ColumnScheme.layout scheme.now)) 512 (S.ColumnScheme.layout scheme.now) platform.now (place_of cells.old) (new_filling (held_by tables.old)) }
{
    let columns = scheme.columns();
    let ytd = scheme.has_ytd();
    // A loop of its own, beside that of the first pass: a line is read straight into its title's part of the table, and
    // one loop for both would read it into a row first and copy it, under a trait that says how far each pass has come.
    for title in 0..MOST_TITLES {
        let at = title * columns;
        let line = read_title(cells, platform, &mut tables.numbers[at..at + columns], ytd)?;
        tables.put(title, &line);
        if cells.is_done() {
            return Ok(title + 1);
        }
    }
    Err(cells.fault(Cause::WrongText))
}

/// Fills the tables from the whole file.
pub(crate) fn fill_file<'a, S: ColumnScheme>(
    scheme: &S,
    file: &'a [u8],
    tables: &mut LentTables<'_, 'a>,
) -> Result<ReadOut<'a>, LineFault>
    requires { roomy (S.ColumnScheme.layout scheme.now) (held_by tables.old) ≡ true }
    ensures same { SameLent tables.old tables.new }
    ensures filled { out_filled (held_by tables.new) result ≡ filled_at (S.ColumnScheme.layout scheme.now) file.now (held_by tables.old) }
{
    // As long as the longest line: there is no heap.
    let mut figures = [0u32; 15];
    let figures = &mut figures[..figure_count(scheme)];
    let mut cells = CellReader::new(file);
    let top = read_top(&mut cells, scheme, figures)?;
    let titles = fill_titles(&mut cells, scheme, top.label.platform, tables)?;
    let header = Header {
        criteria: top.occasion.criteria,
        date: top.occasion.date,
        platform: top.label.platform,
    };
    Ok(ReadOut { header, titles })
}
