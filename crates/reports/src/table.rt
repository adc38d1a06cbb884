//! The count table, and what its cells come to.
ghost use Rattle.std.specs.Prelude.{◌≡◌, ◌*◌, ◌^◌, ◌<◌, ◌≤◌, length};
ghost use Rattle.reports.specs.Tables.{html_at, pdf_at, usage_by};

use crate::counts::{Counts, Formats};
use titles::Title;

/// A count table with the titles that it counts for: two cells, HTML and PDF, to each title and column.
// The cells are lent, and go by the titles' numbers, as the ledger writes them.
#[derive(Clone, Copy)]
pub(crate) struct Table<'c, 'a> {
    pub titles: &'a [Title<'a>],
    pub cells: &'c [u32],
    pub columns: usize,
    ghost full: { length cells.now ≡ length titles.now * columns * 2 },
    ghost few_titles: { length titles.now ≤ 512 },
    ghost few_columns: { columns ≤ 12 },
}

impl Table<'_, '_> {
    ghost use Rattle.reports.specs.Counting.{html_sum, pdf_sum, usage_of};

    /// A title's requests in a column.
    fn title_formats(&self, title: usize, column: usize) -> Formats<u64>
        requires title { title < length self.now.titles.now }
        requires column { column < self.now.columns }
        ensures formats { result ≡ record { html = html_at self.now.cells.now self.now.columns title column; pdf = pdf_at self.now.cells.now self.now.columns title column } }
        ensures low { (result.html < 2 ^ 32) × (result.pdf < 2 ^ 32) }
    {
        let at = (title * self.columns + column) * 2;
        Formats {
            html: u64::from(self.cells[at]),
            pdf: u64::from(self.cells[at + 1]),
        }
    }

    /// The requests of all titles in a column.
    fn column_formats(&self, column: usize) -> Formats<u64>
        requires { column < self.now.columns }
        ensures formats { result ≡ record { html = html_sum self.now.cells.now self.now.columns (length self.now.titles.now) column; pdf = pdf_sum self.now.cells.now self.now.columns (length self.now.titles.now) column } }
        ensures low { (result.html ≤ 2 ^ 41) × (result.pdf ≤ 2 ^ 41) }
    {
        // The form is fixed: a loop over the title slice with index, since the cells go by the titles' numbers.
        let mut sum = Formats { html: 0, pdf: 0 };
        for (title, _) in self.titles.iter().enumerate() {
            let formats = self.title_formats(title, column);
            sum.html += formats.html;
            sum.pdf += formats.pdf;
        }
        sum
    }

    /// The numbers of a title's line.
    pub fn title_counts(&self, title: usize) -> Counts
        requires { title < length self.now.titles.now }
        ensures { usage_of result ≡ usage_by (html_at self.now.cells.now self.now.columns title) (pdf_at self.now.cells.now self.now.columns title) self.now.columns }
    {
        Counts::by_column(self.columns, |column| self.title_formats(title, column))
    }

    /// The numbers of the line for all journals.
    pub fn total_counts(&self) -> Counts
        ensures { usage_of result ≡ usage_by (html_sum self.now.cells.now self.now.columns (length self.now.titles.now)) (pdf_sum self.now.cells.now self.now.columns (length self.now.titles.now)) self.now.columns }
    {
        Counts::by_column(self.columns, |column| self.column_formats(column))
    }
}
