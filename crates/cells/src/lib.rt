//! The cells of a report's file: where each one ends, and what may stand in it.
//!
//! A file is walked over once, cell by cell. A cell is handed out as the part of the file that it is.
#![tactic(auto)]

mod cell;
mod date;
mod fault;
mod judge;
mod number;
mod reader;
mod walk;

pub use cell::{Cell, Spot};
pub use fault::{Cause, CellFault, LineFault};
pub use judge::{date_cell, issn_cell, note_cell, number_cell, sum_cell, text_cell, word_cell};
pub use reader::CellReader;
