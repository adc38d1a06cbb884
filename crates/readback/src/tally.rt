//! What is kept of the titles' lines while a file is judged.
ghost use Rattle.std.specs.Prelude.{◌≡◌, ◌*◌, ◌^◌, ◌<◌, ◌≤◌, sum};
ghost use Rattle.readback.specs.Sums.{Low};

use crate::line::TitleLine;
use reports::Formats;

/// The sums over all titles.
#[derive(Clone, Copy)]
pub(crate) struct Sums {
    // As many places as a report may have columns: nothing here is kept on a heap.
    columns: [u64; 12],
    html: u64,
    pdf: u64,
}

/// What is kept of the titles' lines: how many there are, their sums, and the publisher that all share, else blank.
#[derive(Clone, Copy)]
pub(crate) struct Judged<'a> {
    titles: usize,
    pub sums: Sums,
    // Not an option: the titles are counted anyway, for the bound of the sums, and tell the first one.
    pub publisher: &'a [u8],
    ghost most: { titles ≤ 512 },
    ghost low: { Low (titles * 2 ^ 32) sums },
}

/// The sum of the sums of some columns.
fn total_of(columns: &[u64]) -> u64
    requires { sum columns.now < 2 ^ 64 }
    ensures { result ≡ sum columns.now }
{
    columns.iter().sum()
}

impl Sums {
    ghost use Rattle.std.specs.Prelude.{◌≡◌, ℕ, Bool, ◌+◌, ◌^◌, ◌≤◌, length, take};
    ghost use Rattle.reports.specs.Reports.{shown_numbers};
    ghost use Rattle.grammar.specs.Lines.{figure_count};
    ghost use Rattle.readback.specs.Passes.{added, sums_of, usage_with};

    /// Adds the numbers of a title.
    // `few` comes down from the scheme: the numbers are a slice, whose type says nothing of its length.
    fn add(&mut self, numbers: &[u32], year: Option<Formats<u32>>)
        requires few { length numbers.now ≤ 12 }
        requires low { Low (2 ^ 62) self.old }
        ensures added { sums_of (length numbers.now) self.new ≡ added (sums_of (length numbers.now) self.old) (usage_with numbers.now year) }
        ensures low { (b : ℕ) → Low b self.old → Low (b + 2 ^ 32) self.new }
    {
        for (column, number) in numbers.iter().enumerate() {
            self.columns[column] += u64::from(*number);
        }
        if let Some(year) = year {
            self.html += u64::from(year.html);
            self.pdf += u64::from(year.pdf);
        }
    }

    /// The numbers of line 6, as they should be: the sums of the columns, and behind them those of the year to date.
    pub(crate) fn shown(&self, columns: usize) -> [u64; 15]
        requires few { columns ≤ 12 }
        requires low { Low (2 ^ 41) self.now }
        ensures { (ytd : Bool) → take (figure_count ytd columns) result ≡ shown_numbers ytd (sums_of columns self.now) }
    {
        let mut shown = [0u64; 15];
        shown[..columns].copy_from_slice(&self.columns[..columns]);
        shown[columns] = total_of(&self.columns[..columns]);
        shown[columns + 1] = self.html;
        shown[columns + 2] = self.pdf;
        shown
    }
}

impl<'a> Judged<'a> {
    ghost use Rattle.std.specs.Prelude.{◌≡◌, ℕ, ◌+◌, ◌<◌, ◌≤◌, length};
    ghost use Rattle.readback.specs.Passes.{no_tally, row_with, still_shared, tallied, tally_of};

    /// Before the first title.
    pub(crate) fn none() -> Judged<'a>
        ensures titles { result.titles ≡ 0 }
        ensures tally { (n : ℕ) → n ≤ 12 → tally_of n result ≡ no_tally n }
    {
        Judged {
            titles: 0,
            sums: Sums {
                columns: [0; 12],
                html: 0,
                pdf: 0,
            },
            publisher: b"",
        }
    }

    /// The publisher that all titles share once this one is among them, else blank.
    fn publisher_with(&self, next: &'a [u8]) -> &'a [u8]
        ensures { result.now ≡ still_shared self.now.titles self.now.publisher.now next.now }
    {
        if self.titles == 0 {
            next
        } else if self.publisher == next {
            self.publisher
        } else {
            b""
        }
    }

    /// One title more.
    pub(crate) fn note(&mut self, line: &TitleLine<'a>, numbers: &[u32])
        requires few { length numbers.now ≤ 12 }
        requires titles { self.old.titles < 512 }
        ensures titles { self.new.titles ≡ self.old.titles + 1 }
        ensures tally { tally_of (length numbers.now) self.new ≡ tallied (tally_of (length numbers.now) self.old) (row_with numbers.now line.now) }
    {
        self.publisher = self.publisher_with(line.title.publisher);
        self.sums.add(numbers, line.year);
        self.titles += 1;
    }
}
