//! The tables that are lent for a report that is read.
ghost use Rattle.std.specs.Prelude.{◌≡◌, ◌+◌, ◌*◌, ◌<◌, true, length, is_some, slice_set};
ghost use Rattle.readback.specs.Answers.{held_by, roomy};
ghost use Rattle.readback.specs.Lent.{SameLent};
ghost use Rattle.readback.specs.Passes.{put_year};

use crate::judge::MOST_TITLES;
use crate::line::TitleLine;
use columns::ColumnScheme;
use titles::Title;

/// Tables with room for 512 titles, into which a report is read.
// Three slices and no table of rows: the memory is lent, and a title has as many numbers as the scheme has columns. The
// year to date is a row of numbers as well, as callers have it.
#[derive(Drop)]
pub struct LentTables<'t, 'a> {
    /// The titles.
    pub titles: &'t mut [Title<'a>],
    /// The number of title t in column c, at t × columns + c.
    pub numbers: &'t mut [u32],
    /// The HTML and PDF sums of title t in the year to date, at t × 2 and t × 2 + 1; where it is not shown, none.
    pub ytd: &'t mut [u32],
}

impl<'a> LentTables<'_, 'a> {
    /// Whether there is room for 512 titles under a scheme.
    pub(crate) fn has_room<S: ColumnScheme>(&self, scheme: &S) -> bool
        ensures { result ≡ roomy (S.ColumnScheme.layout scheme.now) (held_by self.now) }
    {
        if self.titles.len() < MOST_TITLES || self.numbers.len() < MOST_TITLES * scheme.columns() {
            return false;
        }
        !scheme.has_ytd() || self.ytd.len() >= MOST_TITLES * 2
    }

    /// Writes what the line of the title with the number `at` says besides the numbers of its columns.
    pub(crate) fn put(&mut self, at: usize, line: &TitleLine<'a>)
        requires title { at < length self.old.titles.now }
        requires year { is_some line.now.year ≡ true → at * 2 + 1 < length self.old.ytd.now }
        ensures same { SameLent self.old self.new }
        ensures titles { self.new.titles.now ≡ slice_set self.old.titles.now at line.now.title }
        ensures numbers { self.new.numbers.now ≡ self.old.numbers.now }
        ensures ytd { self.new.ytd.now ≡ put_year line.now.year at self.old.ytd.now }
    {
        self.titles[at] = line.title;
        if let Some(year) = line.year {
            self.ytd[at * 2] = year.html;
            self.ytd[at * 2 + 1] = year.pdf;
        }
    }
}
