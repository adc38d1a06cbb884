//! A whole run, and its report.
ghost use Rattle.ledger.specs.Views.{setup};
ghost use Rattle.audit.specs.Audits.{Audits};

use crate::audit::Audit;
use crate::writing::report;
use columns::ColumnScheme;
use ledger::Unopened;
use records::{ReaderRule, Request, Source};
use replay::Entry;
use reports::Header;
use titles::Title;

/// Opens a ledger for the titles, performs the steps of all entries in their order, enters the
/// replies, settles the ledger, writes its report into the buffer, and reads it back.
///
/// A report that is refused takes nothing back: the ledger is settled, and its count table stands.
pub fn run<'a, R: ReaderRule, S: ColumnScheme, Src: Source>(
    rule: R,
    scheme: S,
    limit: u32,
    waiting: &mut [Request],
    cells: &mut [u32],
    source: &mut Src,
    entries: &mut [Entry],
    titles: &'a [Title<'a>],
    header: &Header<'a>,
    out: &mut [u8],
) -> Result<Audit<R, S>, Unopened<R, S>>
    ensures { Audits (setup R.ReaderRule S.ColumnScheme) S.ColumnScheme.layout rule scheme limit waiting.old cells.old waiting.new cells.new (Src.Source.items source.old) (Src.Source.items source.new) entries.old entries.new titles.now header.now out.old out.new result }
{
    let ledger = replay::run(
        rule,
        scheme,
        titles.len(),
        limit,
        waiting,
        cells,
        source,
        entries,
    )?;
    let written = report(&ledger, cells, titles, header, out);
    Ok(Audit { ledger, written })
}
