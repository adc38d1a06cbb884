//! Tagged logs: the requests of a web server, and groups that cannot be read, as a source of items.
#![tactic(auto)]

mod field;
mod group;
mod log;
mod numbers;

pub use log::Log;
