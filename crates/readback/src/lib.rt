//! Reports read back: a file is accepted exactly where it is the text of some report, and that report is read out.
#![tactic(auto)]

mod answer;
mod fill;
mod judge;
mod line;
mod reading;
mod tables;
mod tally;
mod top;

pub use answer::{ReadOut, ReadRefusal};
pub use reading::read;
pub use tables::LentTables;
