//! The columns of a report: the calendar, and the schemes that give a request its column.
#![tactic(auto)]

mod calendar;
mod month_scheme;
mod period;
mod scheme;
mod year_scheme;

pub use calendar::{Month, days_in, is_date, month_name, month_of, year_digits};
pub use month_scheme::MonthScheme;
pub use period::PeriodRefusal;
pub use scheme::ColumnScheme;
pub use year_scheme::YearScheme;

#[cfg(test)]
mod tests;
