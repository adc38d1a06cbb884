//! The titles of a host: their ISSNs, and what a title list says of each.
#![tactic(auto)]

mod issn;
#[cfg(test)]
mod tests;
mod text;
mod title;

pub use issn::{Issn, IssnFault, read_issn};
pub use text::{TextFault, check_text};
pub use title::{Title, TitleFault};
