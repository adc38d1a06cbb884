//! The report of a settled ledger.
ghost use Rattle.ledger.specs.Views.{settled_books_of, setup};
ghost use Rattle.reports.specs.Answers.{subject_of};
ghost use Rattle.audit.specs.Writings.{Reports};

use crate::checking::read_back;
use columns::ColumnScheme;
use ledger::Settled;
use records::ReaderRule;
use reports::{Header, WriteRefusal, write};
use titles::Title;

/// A report that was written: how many bytes it has, and what it says once it is read back, that is how many titles it
/// has, and the sum of all numbers of its columns.
#[derive(Clone, Copy, Debug, PartialEq, Eq)]
pub struct Written {
    pub length: usize,
    pub titles: usize,
    pub total: u64,
}

/// Writes the report of a settled ledger with its count table and its titles into the buffer, from its first byte on, and
/// reads it back. What lies past it stays, and a refusal leaves the whole buffer as it was.
///
/// Where nobody but the ledger wrote the count table, the report counts every accepted request that has no follower.
pub fn report<'a, R: ReaderRule, S: ColumnScheme>(
    ledger: &Settled<R, S>,
    cells: &[u32],
    titles: &'a [Title<'a>],
    header: &Header<'a>,
    out: &mut [u8],
) -> Result<Written, WriteRefusal>
    ensures { Reports (setup R.ReaderRule S.ColumnScheme ledger.now.last.terms) (λ w. settled_books_of ledger.now w cells.now) (subject_of S.ColumnScheme.layout ledger.now cells.now titles.now header.now) out.old out.new result }
{
    let length = write(ledger, cells, titles, header, out)?;
    let found = read_back(ledger.scheme(), &out[..length]).unwrap();
    Ok(Written {
        length,
        titles: found.titles,
        total: found.total,
    })
}
