//! Whole runs of a ledger: opened, led through a row of steps, and settled.
#![tactic(auto)]

mod row;
mod runner;

pub use row::{Entry, Reply, Step};
pub use runner::{lead, run};
