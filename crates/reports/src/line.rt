//! The lines of a report.
ghost use Rattle.std.specs.Prelude.{◌≡◌, [], map, decimal, slice_index_or};
ghost use Rattle.std.specs.List.{flat_map};
ghost use Rattle.titles.specs.Titles.{entry_of, issn_bytes};
ghost use Rattle.reports.specs.Counting.{usage_of};
ghost use Rattle.reports.specs.Labels.{label_text, labelled_line};
ghost use Rattle.reports.specs.Puts.{Put};
ghost use Rattle.reports.specs.Reports.{ytd_numbers};
ghost use Rattle.reports.specs.Tables.{line_with};
ghost use Rattle.reports.specs.Written.{date_text, heading_line, line_text, next_cell, title_line, two_digits, ytd_headings};

use crate::counts::Counts;
use crate::header::Date;
use crate::page::Page;
use columns::{ColumnScheme, year_digits};
use titles::{Issn, Title};

/// The five cells with which the lines of a report's table begin.
#[derive(Clone, Copy, Debug, PartialEq, Eq)]
pub(crate) struct Label<'a> {
    pub name: &'a [u8],
    pub publisher: &'a [u8],
    pub platform: &'a [u8],
    pub print: &'a [u8],
    pub online: &'a [u8],
}

/// Writes a line of one cell.
pub(crate) fn put_single_line(page: &mut Page<'_>, cell: &[u8])
    ensures { Put page.old (line_text cell.now []) page.new }
{
    page.put_bytes(cell);
    page.put_line_end();
}

/// Writes the line with the date, as yyyy-mm-dd.
pub(crate) fn put_date_line(page: &mut Page<'_>, date: Date)
    ensures { Put page.old (line_text (date_text date.year date.month date.day) []) page.new }
{
    let [a, b, c, d] = year_digits(date.year);
    let [e, f] = two_digits(date.month);
    let [g, h] = two_digits(date.day);
    put_single_line(page, &[a, b, c, d, b'-', e, f, b'-', g, h]);
}

/// The tens and the ones of a number, in ASCII.
fn two_digits(n: u8) -> [u8; 2]
    ensures { result ≡ two_digits n }
{
    [b'0' + n / 10, b'0' + n % 10]
}

/// Writes the cells with which a line begins.
fn put_label(page: &mut Page<'_>, label: &Label<'_>)
    ensures { Put page.old (label_text label.now) page.new }
{
    page.put_bytes(label.name);
    page.put_cells(&[label.publisher, label.platform, label.print, label.online]);
}

/// Writes the line of the headings.
pub(crate) fn put_heading_line<S: ColumnScheme>(page: &mut Page<'_>, scheme: &S)
    ensures { Put page.old (heading_line (S.ColumnScheme.layout scheme.now)) page.new }
{
    let label = Label {
        name: b"",
        publisher: b"Publisher",
        platform: b"Platform",
        print: b"Print ISSN",
        online: b"Online ISSN",
    };
    put_label(page, &label);
    put_headings(page, scheme);
    put_ytd_headings(page, scheme.has_ytd());
    page.put_line_end();
}

/// Writes the headings of the columns.
fn put_headings<S: ColumnScheme>(page: &mut Page<'_>, scheme: &S)
    ensures { Put page.old (flat_map next_cell (S.ColumnScheme.layout scheme.now).headings) page.new }
{
    // By number: a scheme hands its headings out one by one.
    for column in 0..scheme.columns() {
        page.put_cell(heading_or_blank(scheme, column));
    }
}

/// The heading of a column, and blank past the last.
fn heading_or_blank<S: ColumnScheme>(scheme: &S, column: usize) -> &[u8]
    ensures { result.now ≡ slice_index_or (S.ColumnScheme.layout scheme.now).headings column [] }
{
    scheme.heading(column).unwrap_or(b"")
}

/// Writes the headings of the year-to-date columns, if they follow.
fn put_ytd_headings(page: &mut Page<'_>, ytd: bool)
    ensures { Put page.old (flat_map next_cell (ytd_headings ytd)) page.new }
{
    let headings: [&[u8]; 3] = [b"YTD Total", b"YTD HTML", b"YTD PDF"];
    page.put_cells(if ytd { &headings } else { &[] });
}

/// Writes a line of the table.
pub(crate) fn put_count_line(page: &mut Page<'_>, label: &Label<'_>, counts: &Counts, ytd: bool)
    ensures { Put page.old (labelled_line ytd label.now (usage_of counts.now)) page.new }
{
    put_label(page, label);
    page.put_cells(counts.numbers());
    put_ytd_numbers(page, counts, ytd);
    page.put_line_end();
}

/// Writes the numbers of the year-to-date columns, if they follow.
fn put_ytd_numbers(page: &mut Page<'_>, counts: &Counts, ytd: bool)
    ensures { Put page.old (flat_map next_cell (map decimal (ytd_numbers ytd (usage_of counts.now)))) page.new }
{
    let sums = counts.sums();
    let numbers = [counts.total(), sums.html, sums.pdf];
    page.put_cells(if ytd { &numbers } else { &[] });
}

/// Writes a title's line.
pub(crate) fn put_title_line<'a>(
    page: &mut Page<'_>,
    title: &'a Title<'a>,
    platform: &'a [u8],
    counts: &Counts,
    ytd: bool,
)
    ensures { Put page.old (title_line ytd platform.now (line_with (entry_of title.now) (usage_of counts.now))) page.new }
{
    let label = Label {
        name: title.name,
        publisher: title.publisher,
        platform,
        print: issn_bytes(&title.print),
        online: issn_bytes(&title.online),
    };
    put_count_line(page, &label, counts, ytd);
}

/// An ISSN as it is shown: a blank one is a blank cell.
fn issn_bytes(issn: &Option<Issn>) -> &[u8]
    ensures { result.now ≡ issn_bytes issn.now }
{
    match issn {
        Some(issn) => issn.as_bytes(),
        None => b"",
    }
}
