//! The first pass: the file is judged whole, and nothing is written.
ghost use Rattle.std.specs.Prelude.{◌≡◌, Bool, ◌<◌, ◌≤◌, ◌==◌, length, not, IfSome};
ghost use Rattle.std.specs.List.{position, zip};
ghost use Rattle.cells.specs.Cells.{place_of};
ghost use Rattle.cells.specs.Faults.{new_fault};
ghost use Rattle.grammar.specs.Files.{column_count, read_file, sums_against};
ghost use Rattle.grammar.specs.Lines.{figure_count};
ghost use Rattle.readback.specs.Answers.{map_both};
ghost use Rattle.readback.specs.Passes.{against, no_tally, over, tallied, tally_of};

use crate::line::read_title;
use crate::tally::Judged;
use crate::top::{TotalLabel, figure_count, read_top};
use cells::{Cause, CellReader, LineFault};
use columns::ColumnScheme;

/// The most titles that a report has.
pub(crate) const MOST_TITLES: usize = 512;

/// Judges the titles' lines to the end of the file. There is room for the numbers of one in the row.
fn judge_titles<'a, S: ColumnScheme>(
    cells: &mut CellReader<'a>,
    scheme: &S,
    platform: &[u8],
    row: &mut [u32],
) -> Result<Judged<'a>, LineFault>
    requires { length row.old ≡ column_count (S.ColumnScheme.layout scheme.now) }
    ensures { map_both (tally_of (length row.old)) (λ e. e) result ≡ over tallied 512 (S.ColumnScheme.layout scheme.now) platform.now (place_of cells.old) (no_tally (length row.old)) }
{
    let ytd = scheme.has_ytd();
    let mut judged = Judged::none();
    for _ in 0..MOST_TITLES {
        let line = read_title(cells, platform, row, ytd)?;
        judged.note(&line, row);
        if cells.is_done() {
            return Ok(judged);
        }
    }
    Err(cells.fault(Cause::WrongText))
}

/// A fault in line 6.
fn totals_fault(column: usize, cause: Cause) -> LineFault
    ensures { result ≡ new_fault 6 column cause }
{
    LineFault {
        line: 6,
        column,
        cause,
    }
}

/// The place of the first number that is not the sum that it should be.
fn first_wrong(figures: &[u32], sums: &[u64]) -> Option<usize>
    ensures first { result ≡ position (λ p. not (p.0 == p.1)) (zip figures.now sums.now) }
    ensures below { IfSome result (λ place. place < length sums.now) }
{
    figures
        .iter()
        .zip(sums.iter())
        .position(|(shown, sum)| u64::from(*shown) != *sum)
}

/// Judges the numbers of line 6 from the left.
fn check_figures(figures: &[u32], sums: &[u64]) -> Result<(), LineFault>
    requires { length sums.now ≤ 15 }
    ensures { result ≡ sums_against 6 figures.now sums.now }
{
    match first_wrong(figures, sums) {
        Some(place) => Err(totals_fault(6 + place, Cause::WrongSum)),
        None => Ok(()),
    }
}

/// Judges the publisher and the numbers of line 6 by what the titles' lines come to, under so many columns.
// The bound comes from the scheme's `columns`, whose contract has it; no type holds the number.
fn check_totals(
    label: &TotalLabel<'_>,
    figures: &[u32],
    judged: &Judged<'_>,
    columns: usize,
) -> Result<(), LineFault>
    requires { columns ≤ 12 }
    ensures { (ytd : Bool) → length figures.now ≡ figure_count ytd columns → result ≡ against ytd label.now.publisher.now figures.now (tally_of columns judged.now) }
{
    if label.publisher != judged.publisher {
        return Err(totals_fault(2, Cause::WrongText));
    }
    let sums = judged.sums.shown(columns);
    check_figures(figures, &sums)
}

/// Judges the whole file.
pub(crate) fn judge_file<S: ColumnScheme>(scheme: &S, file: &[u8]) -> Result<(), LineFault>
    ensures { result ≡ map_both (λ _. tt) (λ e. e) (read_file (S.ColumnScheme.layout scheme.now) file.now) }
{
    let columns = scheme.columns();
    // As long as the longest line, of which a scheme's columns take the front: there is no heap.
    let mut figures = [0u32; 15];
    let figures = &mut figures[..figure_count(scheme)];
    let mut row = [0u32; 12];
    let row = &mut row[..columns];
    let mut cells = CellReader::new(file);
    let top = read_top(&mut cells, scheme, figures)?;
    let judged = judge_titles(&mut cells, scheme, top.label.platform, row)?;
    check_totals(&top.label, figures, &judged, columns)
}
