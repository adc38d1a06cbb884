//! The calendar of the years 2000 to 2099.
ghost use Rattle.std.specs.Prelude.{◌≡◌, ◌+◌, ◌%◌, ◌<◌, ◌≤◌};
ghost use Rattle.std.specs.List.{slice_get};
ghost use Rattle.columns.specs.Calendar.{days_in, days_in_year, days_of_months, days_of_years, digits, is_date, MonthIn, MonthOf, names};

use records::LAST_SECOND;

/// The months' lengths in a common year.
const LENGTHS: [u8; 12] = [31, 28, 31, 30, 31, 30, 31, 31, 30, 31, 30, 31];

/// The months' English names in three letters.
pub(crate) const NAMES: [[u8; 3]; 12] = [
    *b"Jan", *b"Feb", *b"Mar", *b"Apr", *b"May", *b"Jun", *b"Jul", *b"Aug", *b"Sep", *b"Oct",
    *b"Nov", *b"Dec",
];

/// The seconds of a day.
const DAY: u32 = 86_400;

/// A month of a year.
#[derive(Clone, Copy, Debug, PartialEq, Eq)]
pub struct Month {
    pub year: u16,
    /// From 0 for January to 11 for December.
    pub month: usize,
}

/// The days of a month that counts from 0, and 0 past December.
///
/// Every fourth year is taken for a leap year, which is right from 1901 to 2099.
// 0 and no `Option` past December, as callers have it: of such a month no day is a real one.
pub fn days_in(year: u16, month: usize) -> u8
    ensures { result ≡ days_in year month }
{
    match month {
        1 if year % 4 == 0 => 29,
        _ => LENGTHS.get(month).copied().unwrap_or(0),
    }
}

/// The English name, in three letters, of a month that counts from 0.
pub fn month_name(month: usize) -> Option<[u8; 3]>
    ensures { result ≡ slice_get names month }
{
    NAMES.get(month).copied()
}

/// Whether this is a real date of 2000 to 2099, month and day counted from 1.
pub fn is_date(year: u16, month: u8, day: u8) -> bool
    ensures { result ≡ is_date year month day }
{
    matches!(year, 2000..=2099)
        && matches!(month, 1..=12)
        && (1..=days_in(year, usize::from(month) - 1)).contains(&day)
}

/// The year's four decimal digits, in ASCII; of a longer number the last four.
pub fn year_digits(year: u16) -> [u8; 4]
    ensures { result ≡ digits year }
{
    [year / 1000, year / 100, year / 10, year].map(digit)
}

/// The last decimal digit of a number, in ASCII.
fn digit(n: u16) -> u8
    ensures { result ≡ 48 + n % 10 }
{
    b'0' + (n % 10) as u8
}

/// The month in which a second falls, counted from 2000-01-01 00:00:00 UTC without leap seconds;
/// none past the end of 2099.
#[tactic(auto, using(crate::specs::Days::month_unknown, crate::specs::Days::month_known, crate::specs::Days::month_of_day))]
pub fn month_of(time: u32) -> Option<Month>
    ensures { MonthOf time result }
{
    if time > LAST_SECOND {
        return None;
    }
    let (years, day) = year_of_day(time / DAY);
    let year = 2000 + years;
    Some(Month {
        year,
        month: month_of_day(year, day),
    })
}

/// The month of a year in which a second falls; none if it falls in another year.
pub(crate) fn month_in(year: u16, time: u32) -> Option<usize>
    ensures { MonthIn year time result }
{
    let date = month_of(time)?;
    (date.year == year).then_some(date.month)
}

/// The year in which a day falls, as the number of years since 2000, and the day within that year.
///
/// The day counts from the start of 2000. Four years have 1461 days, the first of them the longest.
#[tactic(auto, using(crate::specs::Days::days_of_years_lem))]
fn year_of_day(day: u32) -> (u16, u32)
    requires { day < 36525 }
    ensures { (result.0 < 100) × (days_of_years result.0 + result.1 ≡ day) × (result.1 < days_in_year (2000 + result.0)) }
{
    let years = 4 * day / 1461;
    (years as u16, day - (365 * years + (years + 3) / 4))
}

/// The month in which a day of a year falls, both counted from 0.
fn month_of_day(year: u16, day: u32) -> usize
    requires { day < days_in_year year }
    ensures { (result < 12) × (days_of_months year result ≤ day) × (day < days_of_months year (result + 1)) }
{
    // A loop, since each month takes its days off what is left for the next: a fold would carry the
    // same number, and stop at the same month.
    let mut left = day;
    for month in 0..12 {
        let days = u32::from(days_in(year, month));
        if left < days {
            return month;
        }
        left -= days;
    }
    unreachable!()
}
