//! Rows of tagged blocks in lent bytes.
//!
//! A block is a tag, a two-byte length and as many bytes as the length says. A log and a title list are rows of groups,
//! and a group is a row of fields; groups and fields alike are blocks. The bytes of a block are handed out as the part
//! of the lent bytes that they are.
#![tactic(auto)]

mod block;
mod reading;

pub use block::{Block, Blocks};
