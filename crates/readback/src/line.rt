//! The lines of the titles.
ghost use Rattle.std.specs.Prelude.{◌≡◌, ◌^◌, ◌≤◌, length, sum, is_some, IfOk};
ghost use Rattle.titles.specs.Titles.{entry_of};
ghost use Rattle.cells.specs.Cells.{place_of};
ghost use Rattle.cells.specs.Places.{seen};
ghost use Rattle.grammar.specs.Lines.{entry_at, names_at, numbers_at, row_at, year_to_date_at};
ghost use Rattle.readback.specs.Passes.{row_with};

use cells::{CellReader, LineFault, issn_cell, number_cell, sum_cell, text_cell, word_cell};
use reports::Formats;
use titles::Title;

/// What a title's line says besides the numbers of its columns, with the year to date where it is shown.
#[derive(Clone, Copy)]
pub(crate) struct TitleLine<'a> {
    pub title: Title<'a>,
    pub year: Option<Formats<u32>>,
}

/// Reads a number into each place of the row. The line ends with the last of them where `ends` says so.
pub(crate) fn read_numbers(
    cells: &mut CellReader<'_>,
    row: &mut [u32],
    ends: bool,
) -> Result<(), LineFault>
    ensures { seen (λ _. row.new) result (place_of cells.new) ≡ numbers_at ends (length row.old) (place_of cells.old) }
{
    let count = row.len();
    for (i, number) in row.iter_mut().enumerate() {
        *number = number_cell(cells, ends && i + 1 == count)?;
    }
    Ok(())
}

/// The sum of a row of numbers.
// One chain: as a public function it would have to ask for the bound, and no public function asks for anything.
fn sum_of(numbers: &[u32]) -> u64
    requires { length numbers.now ≤ 12 }
    ensures { result ≡ sum numbers.now }
{
    numbers.iter().map(|number| u64::from(*number)).sum()
}

/// Reads the year to date, whose total is the sum of the columns.
fn read_year_to_date(cells: &mut CellReader<'_>, total: u64) -> Result<Formats<u32>, LineFault>
    ensures { seen (λ y. (y.html, y.pdf)) result (place_of cells.new) ≡ year_to_date_at total (place_of cells.old) }
{
    sum_cell(cells, 0, total, false)?;
    let html = number_cell(cells, false)?;
    let pdf = sum_cell(cells, html, total, true)?;
    Ok(Formats { html, pdf })
}

/// A title's name and publisher.
#[derive(Clone, Copy)]
struct Names<'a> {
    name: &'a [u8],
    publisher: &'a [u8],
}

/// Reads a title's name and publisher, and the platform, which is that of all titles.
fn read_names<'a>(cells: &mut CellReader<'a>, platform: &[u8]) -> Result<Names<'a>, LineFault>
    ensures { seen (λ n. (n.name.now, n.publisher.now)) result (place_of cells.new) ≡ names_at platform.now (place_of cells.old) }
{
    let name = text_cell(cells, false)?;
    let publisher = text_cell(cells, false)?;
    word_cell(cells, platform, false)?;
    Ok(Names { name, publisher })
}

/// Reads the five cells with which a title's line begins.
fn read_entry<'a>(cells: &mut CellReader<'a>, platform: &[u8]) -> Result<Title<'a>, LineFault>
    ensures { seen entry_of result (place_of cells.new) ≡ entry_at platform.now (place_of cells.old) }
{
    let names = read_names(cells, platform)?;
    let print = issn_cell(cells, false)?;
    let online = issn_cell(cells, false)?;
    Ok(Title {
        name: names.name,
        publisher: names.publisher,
        print,
        online,
    })
}

/// Reads a title's line, and the numbers of its columns into the row.
pub(crate) fn read_title<'a>(
    cells: &mut CellReader<'a>,
    platform: &[u8],
    row: &mut [u32],
    ytd: bool,
) -> Result<TitleLine<'a>, LineFault>
    requires { length row.old ≤ 12 }
    ensures row { seen (row_with row.new) result (place_of cells.new) ≡ row_at ytd (length row.old) platform.now (place_of cells.old) }
    ensures year { IfOk result (λ t. is_some t.year ≡ ytd) }
{
    let title = read_entry(cells, platform)?;
    read_numbers(cells, row, !ytd)?;
    let year = if ytd {
        Some(read_year_to_date(cells, sum_of(row))?)
    } else {
        None
    };
    Ok(TitleLine { title, year })
}
