//! Why a period is refused.
use std::error::Error;
use std::fmt;

/// What of a scheme's period is out of range. Each of these bears the number 9.
#[derive(Clone, Copy, Debug, PartialEq, Eq)]
pub enum PeriodRefusal {
    /// A year before 2000 or after 2099.
    Year,
    /// A last month that is not one of 1 to 12.
    LastMonth,
    /// A first year of publication that is not 4 to 10 years before the year.
    FirstYear,
}

impl fmt::Display for PeriodRefusal {
    fn fmt<W: fmt::Write>(&self, f: &mut fmt::Formatter<W>) -> fmt::Result {
        match self {
            PeriodRefusal::Year => write!(f, "the year is not one of 2000 to 2099"),
            PeriodRefusal::LastMonth => write!(f, "the last month is not one of 1 to 12"),
            PeriodRefusal::FirstYear => {
                write!(f, "the first year is not 4 to 10 years before the year")
            }
        }
    }
}

impl Error for PeriodRefusal {}
