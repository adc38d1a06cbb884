//! Journal reports: a settled ledger's counts, laid out as the Code of Practice has them.
#![tactic(auto)]

mod check;
mod counted;
mod counts;
mod header;
mod line;
mod page;
mod publisher;
mod refusal;
mod table;
mod writer;

pub use counts::Formats;
pub use header::{Date, Header};
pub use refusal::WriteRefusal;
pub use writer::write;

#[cfg(test)]
mod tests;
