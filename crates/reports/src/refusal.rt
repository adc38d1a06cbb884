//! Why no report is written.
use std::error::Error;
use std::fmt;
use titles::TitleFault;

/// The ground on which a report is refused: refusal 11. Where there are several, the first of them
/// in this order.
#[derive(Clone, Copy, Debug, PartialEq, Eq)]
pub enum WriteRefusal {
    /// The criteria are no text.
    Criteria,
    /// The platform is no text.
    Platform,
    /// There is no such day in 2000 to 2099.
    Date,
    /// There are not as many titles as the ledger has.
    TitleCount,
    /// A title, counted from 0, is not what it should be.
    Title { title: usize, fault: TitleFault },
    /// The count table is not as long as the ledger's.
    CellCount,
    /// A number to be shown is over 1,000,000,000.
    Number,
    /// The report has more bytes than the buffer.
    Buffer,
}

impl fmt::Display for WriteRefusal {
    fn fmt<W: fmt::Write>(&self, f: &mut fmt::Formatter<W>) -> fmt::Result {
        match self {
            WriteRefusal::Criteria => write!(f, "criteria: not a text"),
            WriteRefusal::Platform => write!(f, "platform: not a text"),
            WriteRefusal::Date => write!(f, "date: not a day of 2000 to 2099"),
            WriteRefusal::TitleCount => write!(f, "not as many titles as the ledger has"),
            WriteRefusal::Title { title, fault } => write!(f, "title {title}: {fault}"),
            WriteRefusal::CellCount => write!(f, "count table: not as long as the ledger's"),
            WriteRefusal::Number => write!(f, "a number over 1,000,000,000"),
            WriteRefusal::Buffer => write!(f, "buffer: shorter than the report"),
        }
    }
}

impl Error for WriteRefusal {}
