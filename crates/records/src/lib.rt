//! Requests, who made them, and where they come from.
#![tactic(auto)]

mod item;
mod reader;
mod request;
mod source;

pub use item::{Cause, Damage, Item};
pub use reader::{AddressRule, BestRule, ReaderRule};
pub use request::{HTML, LAST_SECOND, PDF, Request};
pub use source::{RequestTable, Source};
