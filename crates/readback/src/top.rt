//! The six lines above the titles.
ghost use Rattle.std.specs.Prelude.{◌≡◌, ℕ, ◌<◌, ◌≤◌, Bool, List, [], ◌∷◌, ◌++◌, length, slice_index_or};
ghost use Rattle.cells.specs.Judged.{word_at};
ghost use Rattle.cells.specs.Cells.{place_of};
ghost use Rattle.cells.specs.Places.{and_then, seen};
ghost use Rattle.reports.specs.Written.{ytd_headings};
ghost use Rattle.grammar.specs.Files.{column_count, top_at};
ghost use Rattle.grammar.specs.Lines.{figure_count, heading_words, kind_at, occasion_at, total_label_at, totals_at, words_at};
ghost use Rattle.readback.specs.Tops.{label_of, label_words, occasion_of, shown_by, top_by};

use crate::line::read_numbers;
use cells::{CellReader, LineFault, date_cell, note_cell, text_cell, word_cell};
use columns::ColumnScheme;
use reports::Date;

/// What lines 2 to 4 say: whom the report is for, and when it was run.
#[derive(Clone, Copy)]
pub(crate) struct Occasion<'a> {
    pub criteria: &'a [u8],
    pub date: Date,
}

/// What line 6 says besides its numbers, right or not.
#[derive(Clone, Copy)]
pub(crate) struct TotalLabel<'a> {
    pub publisher: &'a [u8],
    pub platform: &'a [u8],
}

/// What the lines above the titles say besides the numbers of line 6.
#[derive(Clone, Copy)]
pub(crate) struct Top<'a> {
    pub occasion: Occasion<'a>,
    pub label: TotalLabel<'a>,
}

/// How many numbers a line shows.
pub(crate) fn figure_count<S: ColumnScheme>(scheme: &S) -> usize
    ensures count { result ≡ figure_count (S.ColumnScheme.layout scheme.now).ytd (column_count (S.ColumnScheme.layout scheme.now)) }
    ensures few { result ≤ 15 }
{
    let columns = scheme.columns();
    if scheme.has_ytd() {
        columns + 3
    } else {
        columns
    }
}

/// Reads line 1: which report it is, and what it counts.
fn read_kind<S: ColumnScheme>(cells: &mut CellReader<'_>, scheme: &S) -> Result<(), LineFault>
    ensures { seen (λ x. x) result (place_of cells.new) ≡ kind_at (S.ColumnScheme.layout scheme.now) (place_of cells.old) }
{
    word_cell(cells, scheme.report(), false)?;
    word_cell(cells, scheme.description(), true)
}

/// Reads lines 2 to 4.
fn read_occasion<'a>(cells: &mut CellReader<'a>) -> Result<Occasion<'a>, LineFault>
    ensures { seen occasion_of result (place_of cells.new) ≡ occasion_at (place_of cells.old) }
{
    let criteria = text_cell(cells, true)?;
    word_cell(cells, b"Date run:", true)?;
    let date = date_cell(cells, true)?;
    Ok(Occasion { criteria, date })
}

/// Reads the first cells of line 5.
fn read_labels(cells: &mut CellReader<'_>) -> Result<(), LineFault>
    ensures { (w : List ℕ) (ws : List (List ℕ)) → and_then (seen (λ x. x) result (place_of cells.new)) (λ x. words_at (w ∷ ws) x.1) ≡ words_at (label_words ++ (w ∷ ws)) (place_of cells.old) }
{
    word_cell(cells, b"", false)?;
    word_cell(cells, b"Publisher", false)?;
    word_cell(cells, b"Platform", false)?;
    word_cell(cells, b"Print ISSN", false)?;
    word_cell(cells, b"Online ISSN", false)
}

/// Reads the heading of a column.
fn read_heading<S: ColumnScheme>(
    cells: &mut CellReader<'_>,
    scheme: &S,
    column: usize,
    last: bool,
) -> Result<(), LineFault>
    requires { column < length (S.ColumnScheme.layout scheme.now).headings }
    ensures { seen (λ x. x) result (place_of cells.new) ≡ word_at (slice_index_or (S.ColumnScheme.layout scheme.now).headings column []) last (place_of cells.old) }
{
    word_cell(cells, scheme.heading(column).unwrap(), last)
}

/// Reads the headings of the columns, behind which those of the year to date may follow.
fn read_headings<S: ColumnScheme>(
    cells: &mut CellReader<'_>,
    scheme: &S,
    ytd: bool,
) -> Result<(), LineFault>
    ensures { and_then (seen (λ x. x) result (place_of cells.new)) (λ x. words_at (ytd_headings ytd) x.1) ≡ words_at ((S.ColumnScheme.layout scheme.now).headings ++ ytd_headings ytd) (place_of cells.old) }
{
    let columns = scheme.columns();
    // By number: a scheme gives its headings one by one, by their columns.
    for column in 0..columns {
        read_heading(cells, scheme, column, !ytd && column + 1 == columns)?;
    }
    Ok(())
}

/// Reads the headings of the year to date, if they follow.
fn read_ytd_headings(cells: &mut CellReader<'_>, ytd: bool) -> Result<(), LineFault>
    ensures { seen (λ x. x) result (place_of cells.new) ≡ words_at (ytd_headings ytd) (place_of cells.old) }
{
    if !ytd {
        return Ok(());
    }
    word_cell(cells, b"YTD Total", false)?;
    word_cell(cells, b"YTD HTML", false)?;
    word_cell(cells, b"YTD PDF", true)
}

/// Reads line 5: the headings.
fn read_heading_line<S: ColumnScheme>(
    cells: &mut CellReader<'_>,
    scheme: &S,
) -> Result<(), LineFault>
    ensures { seen (λ x. x) result (place_of cells.new) ≡ words_at (heading_words (S.ColumnScheme.layout scheme.now)) (place_of cells.old) }
{
    let ytd = scheme.has_ytd();
    read_labels(cells)?;
    read_headings(cells, scheme, ytd)?;
    read_ytd_headings(cells, ytd)
}

/// Reads the first three cells of line 6.
fn read_total_label<'a>(cells: &mut CellReader<'a>) -> Result<TotalLabel<'a>, LineFault>
    ensures { seen label_of result (place_of cells.new) ≡ total_label_at (place_of cells.old) }
{
    word_cell(cells, b"Total for all journals", false)?;
    let publisher = note_cell(cells, false)?;
    let platform = text_cell(cells, false)?;
    Ok(TotalLabel {
        publisher,
        platform,
    })
}

/// Reads line 6, and its numbers into the row. They are only judged by their form.
fn read_totals<'a>(
    cells: &mut CellReader<'a>,
    figures: &mut [u32],
) -> Result<TotalLabel<'a>, LineFault>
    ensures { (ytd : Bool) (n : ℕ) → length figures.old ≡ figure_count ytd n → seen (shown_by figures.new) result (place_of cells.new) ≡ totals_at ytd n (place_of cells.old) }
{
    let label = read_total_label(cells)?;
    word_cell(cells, b"", false)?;
    word_cell(cells, b"", false)?;
    read_numbers(cells, figures, true)?;
    Ok(label)
}

/// Reads the lines above the titles, and the numbers of line 6 into the row.
pub(crate) fn read_top<'a, S: ColumnScheme>(
    cells: &mut CellReader<'a>,
    scheme: &S,
    figures: &mut [u32],
) -> Result<Top<'a>, LineFault>
    requires { length figures.old ≡ figure_count (S.ColumnScheme.layout scheme.now).ytd (column_count (S.ColumnScheme.layout scheme.now)) }
    ensures { seen (top_by figures.new) result (place_of cells.new) ≡ top_at (S.ColumnScheme.layout scheme.now) (place_of cells.old) }
{
    read_kind(cells, scheme)?;
    let occasion = read_occasion(cells)?;
    read_heading_line(cells, scheme)?;
    let label = read_totals(cells, figures)?;
    Ok(Top { occasion, label })
}
