//! Columns by year of publication.
ghost use Rattle.std.specs.Prelude.{◌≡◌, ℕ, ◌+◌, ◌-◌, ◌<◌, ◌≤◌, [], ◌∷◌, ◌++◌, map, length, take, IfOk, IfErr};
ghost use Rattle.std.specs.List.{range_with_len};
ghost use Rattle.std.specs.Result.{result_err};
ghost use Rattle.columns.specs.Layouts.{earlier_heading, recent_heading, year_layout};
ghost use Rattle.columns.specs.Periods.{refusal_number, year_refusal};
ghost use Rattle.columns.specs.Places.{publication_place, YearColumn, year_place};
ghost use Rattle.std.proofs.Common.{arith};
ghost use Rattle.columns.specs.Years.{year_sound, year_length};
ghost use Rattle.columns.specs.Placing.{year_below};

use crate::calendar::{month_in, year_digits};
use crate::period::PeriodRefusal;
use crate::scheme::ColumnScheme;
use records::Request;
use std::array::from_fn;

/// The requests of a year by year of publication: a column for each year from that year back to a
/// first one, and one for all earlier years.
///
/// The headings are kept, so that they can be lent without a heap.
#[derive(Clone, Copy, Debug, PartialEq, Eq)]
pub struct YearScheme {
    year: u16,
    first: u16,
    recent: [[u8; 8]; 11],
    earlier: [u8; 12],
    ghost known: { (2000 ≤ year) × (year ≤ 2099) },
    ghost span: { (first + 4 ≤ year) × (year ≤ first + 10) },
    ghost kept: { take (year - first + 1) recent ++ earlier ∷ [] ≡ (year_layout year first).headings },
}

impl YearScheme {
    /// The requests of a year of 2000 to 2099, by years of publication from `first_year` on, which
    /// lies 4 to 10 years before it.
    ///
    /// The year is judged before the first year. What is made shows the layout and gives the places
    /// of just these years.
    pub fn new(year: u16, first_year: u16) -> Result<YearScheme, PeriodRefusal>
        ensures refused { result_err result ≡ year_refusal year first_year }
        ensures numbered { IfErr result (λ e. refusal_number e ≡ 9) }
        ensures made { IfOk result (λ s. (s.year ≡ year) × (s.first ≡ first_year)) }
    {
        if !(2000..=2099).contains(&year) {
            return Err(PeriodRefusal::Year);
        }
        if !(year - 10..=year - 4).contains(&first_year) {
            return Err(PeriodRefusal::FirstYear);
        }
        Ok(YearScheme {
            year,
            first: first_year,
            recent: recent_headings(year),
            earlier: earlier_heading(first_year),
        })
    }

    /// How many years the first one lies before the year.
    fn span(&self) -> usize
        ensures { result ≡ self.now.year - self.now.first }
    {
        usize::from(self.year - self.first)
    }

    /// The column of a year of publication, where 0 is blank.
    fn publication_column(&self, published: u16) -> Option<usize>
        ensures { result ≡ publication_place self.now.year self.now.first published }
    {
        if published == 0 || published > self.year {
            None
        } else if published < self.first {
            Some(self.span() + 1)
        } else {
            Some(usize::from(self.year - published))
        }
    }
}

/// The headings of a year and of the ten before it.
fn recent_headings(year: u16) -> [[u8; 8]; 11]
    requires { 11 ≤ year }
    ensures { result ≡ map (λ k. recent_heading (year - k)) (range_with_len 0 11) }
{
    from_fn(
        |back|
            requires { (back < 11) × (11 ≤ year) }
            ensures { result ≡ recent_heading (year - back) }
        { recent_heading(year - back as u16) },
    )
}

/// The heading of one year.
fn recent_heading(year: u16) -> [u8; 8]
    ensures { result ≡ recent_heading year }
{
    let [a, b, c, d] = year_digits(year);
    [b'Y', b'O', b'P', b'-', a, b, c, d]
}

/// The heading of all years before a first one.
fn earlier_heading(first: u16) -> [u8; 12]
    ensures { result ≡ earlier_heading first }
{
    let [a, b, c, d] = year_digits(first);
    [b'Y', b'O', b'P', b' ', b'P', b'r', b'e', b'-', a, b, c, d]
}

impl ColumnScheme for YearScheme {
    ghost layout = { λ s. year_layout s.year s.first };

    ghost place = { λ s r. year_place s.year s.first r.time r.published };

    ghost sound = { λ s. year_sound s.year s.first (omega arith) (omega arith) s.span.1 };

    ghost below = { λ s r. simp (year_length s.year s.first) (year_below s.year s.first r.time r.published s.known (omega arith)) };

    fn columns(&self) -> usize {
        self.span() + 2
    }

    fn heading(&self, column: usize) -> Option<&[u8]> {
        let span = self.span();
        match self.recent[..=span].get(column) {
            Some(heading) => Some(heading),
            None if column == span + 1 => Some(&self.earlier),
            None => None,
        }
    }

    fn report(&self) -> &[u8] {
        b"Journal Report 5 (R3)"
    }

    fn description(&self) -> &[u8] {
        b"Number of Successful Full-text Article Requests by Year and Journal"
    }

    fn has_ytd(&self) -> bool {
        false
    }

    fn column(&self, request: &Request) -> Option<usize>
        ensures place { result ≡ year_place self.now.year self.now.first request.now.time request.now.published }
        ensures year { YearColumn self.now.year self.now.first request.now.time request.now.published result }
    {
        month_in(self.year, request.time)?;
        self.publication_column(request.published)
    }
}
