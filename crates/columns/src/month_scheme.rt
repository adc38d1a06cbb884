//! Columns by month of the request.
ghost use Rattle.std.specs.Prelude.{◌≡◌, ℕ, ◌<◌, ◌≤◌, ◌++◌, map, length, take, codes, IfOk, IfErr};
ghost use Rattle.std.specs.Result.{result_err};
ghost use Rattle.columns.specs.Calendar.{names};
ghost use Rattle.columns.specs.Layouts.{month_heading, month_layout};
ghost use Rattle.columns.specs.Periods.{month_refusal, refusal_number};
ghost use Rattle.columns.specs.Places.{MonthColumn, month_place};
ghost use Rattle.columns.specs.Months.{month_sound, month_length};
ghost use Rattle.columns.specs.Placing.{month_below};

use crate::calendar::{NAMES, month_in, year_digits};
use crate::period::PeriodRefusal;
use crate::scheme::ColumnScheme;
use records::Request;

/// A column for each month of a year, from January to a last month.
///
/// The headings of all twelve months are kept, so that they can be lent without a heap.
#[derive(Clone, Copy, Debug, PartialEq, Eq)]
pub struct MonthScheme {
    year: u16,
    months: usize,
    headings: [[u8; 8]; 12],
    ghost known: { (2000 ≤ year) × (year ≤ 2099) },
    ghost some: { (1 ≤ months) × (months ≤ 12) },
    ghost kept: { take months headings ≡ (month_layout year months).headings },
}

impl MonthScheme {
    /// The months from January to `last_month`, which counts from 1, of a year of 2000 to 2099.
    ///
    /// The year is judged before the month. What is made shows the layout and gives the places of
    /// just these months.
    pub fn new(year: u16, last_month: usize) -> Result<MonthScheme, PeriodRefusal>
        ensures refused { result_err result ≡ month_refusal year last_month }
        ensures numbered { IfErr result (λ e. refusal_number e ≡ 9) }
        ensures made { IfOk result (λ s. (s.year ≡ year) × (s.months ≡ last_month)) }
    {
        if !(2000..=2099).contains(&year) {
            return Err(PeriodRefusal::Year);
        }
        if !(1..=12).contains(&last_month) {
            return Err(PeriodRefusal::LastMonth);
        }
        Ok(MonthScheme {
            year,
            months: last_month,
            headings: month_headings(year),
        })
    }
}

/// The headings of all months of a year.
fn month_headings(year: u16) -> [[u8; 8]; 12]
    ensures { result ≡ map (month_heading year) names }
{
    let digits = year_digits(year);
    NAMES.map(
        |name|
            ensures { result ≡ name ++ (codes "-" ++ digits) }
        { month_heading(name, digits) },
    )
}

/// The heading of one month, with the digits of its year.
fn month_heading(name: [u8; 3], digits: [u8; 4]) -> [u8; 8]
    ensures { result ≡ name ++ (codes "-" ++ digits) }
{
    let [a, b, c] = name;
    let [d, e, f, g] = digits;
    [a, b, c, b'-', d, e, f, g]
}

impl ColumnScheme for MonthScheme {
    ghost layout = { λ s. month_layout s.year s.months };

    ghost place = { λ s r. month_place s.year s.months r.time };

    ghost sound = { λ s. month_sound s.year s.months s.some.1 s.some.0 };

    ghost below = { λ s r. simp (month_length s.year s.months s.some.1) (month_below s.year s.months r.time s.known s.some.1) };

    fn columns(&self) -> usize {
        self.months
    }

    fn heading(&self, column: usize) -> Option<&[u8]> {
        let heading = self.headings[..self.months].get(column)?;
        Some(heading)
    }

    fn report(&self) -> &[u8] {
        b"Journal Report 1(R3)"
    }

    fn description(&self) -> &[u8] {
        b"Number of Successful Full-text Article Requests by Month and Journal"
    }

    fn has_ytd(&self) -> bool {
        true
    }

    fn column(&self, request: &Request) -> Option<usize>
        ensures place { result ≡ month_place self.now.year self.now.months request.now.time }
        ensures month { MonthColumn self.now.year self.now.months request.now.time result }
    {
        let month = month_in(self.year, request.time)?;
        (month < self.months).then_some(month)
    }
}
