//! Title lists: groups of tagged fields, each of which says a title, read into a lent table.
#![tactic(auto)]

mod draft;
mod entry;
mod fault;
mod field;
mod list;
#[cfg(test)]
mod tests;

pub use fault::{FieldFault, ListCause, ListFault, ListRefusal};
pub use list::read_list;
