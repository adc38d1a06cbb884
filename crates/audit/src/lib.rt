//! Reports with the law of runs on them: what is written counts every accepted request that has no
//! follower, and nothing else.
#![tactic(auto)]

mod audit;
mod checking;
mod runner;
mod writing;

pub use audit::Audit;
pub use runner::run;
pub use writing::{Written, report};
