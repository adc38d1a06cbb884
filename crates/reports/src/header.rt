//! What a report says besides its titles and their counts.

/// A day. Its month and its day of the month count from 1.
#[derive(Clone, Copy, Debug, PartialEq, Eq)]
pub struct Date {
    pub year: u16,
    pub month: u8,
    pub day: u8,
}

/// Whom a report is for, when it was run, and where the journals are hosted.
///
/// Any bytes may stand in the two texts, and any numbers in the date: writing judges them.
#[derive(Clone, Copy, Debug, PartialEq, Eq)]
pub struct Header<'a> {
    /// A text that names the customer.
    pub criteria: &'a [u8],
    pub date: Date,
    /// A text that names the host.
    pub platform: &'a [u8],
}
