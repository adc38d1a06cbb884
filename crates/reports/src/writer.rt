//! Writing a report.
ghost use Rattle.std.specs.Prelude.{◌≡◌, length, IfErr};
ghost use Rattle.std.specs.List.{flat_map};
ghost use Rattle.reports.specs.Answers.{answer, buffer_after, head_of, refusal_number, subject_of, text_about};
ghost use Rattle.reports.specs.Checks.{Checked};
ghost use Rattle.reports.specs.Counting.{lines_of};
ghost use Rattle.reports.specs.Puts.{Put};
ghost use Rattle.reports.specs.Written.{front_text, report_text, title_line};

use crate::check::{check_header, check_titles};
use crate::counted::Counted;
use crate::header::Header;
use crate::line::{
    Label, put_count_line, put_date_line, put_heading_line, put_single_line, put_title_line,
};
use crate::page::Page;
use crate::publisher::shared_publisher;
use crate::refusal::WriteRefusal;
use crate::table::Table;
use columns::ColumnScheme;
use ledger::Settled;
use titles::Title;

/// Writes the report of a settled ledger with its count table and its titles into the buffer, from
/// its first byte on, and tells how many bytes it has. What lies past them stays, and a refusal
/// leaves the whole buffer as it was.
pub fn write<'a, R, S: ColumnScheme>(
    ledger: &Settled<R, S>,
    cells: &[u32],
    titles: &'a [Title<'a>],
    header: &Header<'a>,
    out: &mut [u8],
) -> Result<usize, WriteRefusal>
    ensures answer { result ≡ answer (subject_of S.ColumnScheme.layout ledger.now cells.now titles.now header.now) (length out.old) }
    ensures numbered { IfErr result (λ e. refusal_number e ≡ 11) }
    ensures buffer { out.new ≡ buffer_after result (text_about (subject_of S.ColumnScheme.layout ledger.now cells.now titles.now header.now)) out.old }
{
    let counted = checked(ledger, cells, titles, header)?;
    let scheme = ledger.scheme();
    // Measured first, on a page of no bytes, so that a report that finds no room leaves the buffer as it was.
    let mut empty = Page {
        out: &mut [],
        at: 0,
    };
    put_report(&mut empty, scheme, header, &counted);
    if empty.at > out.len() {
        return Err(WriteRefusal::Buffer);
    }
    let mut page = Page { out, at: 0 };
    put_report(&mut page, scheme, header, &counted);
    Ok(page.at)
}

/// Judges all but the buffer.
fn checked<'c, 'a, R, S: ColumnScheme>(
    ledger: &Settled<R, S>,
    cells: &'c [u32],
    titles: &'a [Title<'a>],
    header: &Header<'_>,
) -> Result<Counted<'c, 'a>, WriteRefusal>
    ensures { Checked (subject_of S.ColumnScheme.layout ledger.now cells.now titles.now header.now) result }
{
    check_header(header)?;
    if titles.len() != ledger.titles() {
        return Err(WriteRefusal::TitleCount);
    }
    check_titles(titles)?;
    let scheme = ledger.scheme();
    let columns = scheme.columns();
    if cells.len() != titles.len() * columns * 2 {
        return Err(WriteRefusal::CellCount);
    }
    let table = Table {
        titles,
        cells,
        columns,
    };
    let totals = table.total_counts();
    if !totals.can_be_shown(scheme.has_ytd()) {
        return Err(WriteRefusal::Number);
    }
    Ok(Counted { table, totals })
}

/// Writes a report whose parts are what they should be.
fn put_report<'a, S: ColumnScheme>(
    page: &mut Page<'_>,
    scheme: &S,
    header: &Header<'a>,
    counted: &Counted<'_, 'a>,
)
    requires { counted.now.table.columns ≡ length (S.ColumnScheme.layout scheme.now).headings }
    ensures { Put page.old (report_text (S.ColumnScheme.layout scheme.now) (record { head = head_of header.now; lines = lines_of counted.now.table })) page.new }
{
    put_front(page, scheme, header);
    put_heading_line(page, scheme);
    let label = Label {
        name: b"Total for all journals",
        publisher: shared_publisher(counted.table.titles),
        platform: header.platform,
        print: b"",
        online: b"",
    };
    put_count_line(page, &label, &counted.totals, scheme.has_ytd());
    put_title_lines(page, &counted.table, header.platform, scheme.has_ytd());
}

/// Writes the four lines above the table.
fn put_front<S: ColumnScheme>(page: &mut Page<'_>, scheme: &S, header: &Header<'_>)
    ensures { Put page.old (front_text (S.ColumnScheme.layout scheme.now) (head_of header.now)) page.new }
{
    page.put_bytes(scheme.report());
    page.put_cell(scheme.description());
    page.put_line_end();
    put_single_line(page, header.criteria);
    put_single_line(page, b"Date run:");
    put_date_line(page, header.date);
}

/// Writes a line for each title.
fn put_title_lines<'a>(page: &mut Page<'_>, table: &Table<'_, 'a>, platform: &'a [u8], ytd: bool)
    ensures { Put page.old (flat_map (title_line ytd platform.now) (lines_of table.now)) page.new }
{
    for (index, title) in table.titles.iter().enumerate() {
        put_title_line(page, title, platform, &table.title_counts(index), ytd);
    }
}
