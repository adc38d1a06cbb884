//! A count table that may be shown.
ghost use Rattle.std.specs.Prelude.{◌≡◌};
ghost use Rattle.reports.specs.Counting.{lines_of, usage_of};
ghost use Rattle.reports.specs.Reports.{totals as totals_of};

use crate::counts::Counts;
use crate::table::Table;

/// A count table, with the numbers of the line for all journals.
#[derive(Clone, Copy)]
pub(crate) struct Counted<'c, 'a> {
    pub table: Table<'c, 'a>,
    pub totals: Counts,
    ghost summed: { usage_of totals ≡ totals_of table.columns (lines_of table) },
}
