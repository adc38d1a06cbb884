//! The ledger: it takes requests, drops those that a later one supersedes, and counts the others.
#![tactic(auto)]

mod answer;
mod draw;
mod notice;
mod offer;
mod opening;
mod settling;
mod state;
mod sweep;

pub use answer::{Refusal, Verdict};
pub use state::{Open, Settled, Tallies, Terms, Unopened, Unsettled};
