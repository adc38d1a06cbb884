//! A whole run.
ghost use Rattle.std.specs.Prelude.{◌≡◌, ℕ, true, false, List, ◌∷◌, length};
ghost use Rattle.records.specs.declared.request.Request.{Request};
ghost use Rattle.runs.specs.Past.{Call, Past};
ghost use Rattle.runs.specs.Books.{fits};
ghost use Rattle.runs.specs.Law.{Stands};
ghost use Rattle.ledger.specs.Views.{books, setup};
ghost use Rattle.replay.specs.Rows.{Made, with_lent};
ghost use Rattle.replay.specs.Runs.{Leads, Runs};

use crate::row::{Entry, Reply, Step};
use columns::ColumnScheme;
use ledger::{Open, Refusal, Settled, Unopened, Unsettled};
use records::{ReaderRule, Request, Source};

/// Makes the call of a step with the tables that come, which are the ledger's own or do not fit.
// Inlined at both its calls, so that the ledger is not moved once more for each step.
#[inline(always)]
fn make<R: ReaderRule, S: ColumnScheme, Src: Source>(
    ledger: Open<R, S>,
    waiting: &mut [Request],
    cells: &mut [u32],
    source: &mut Src,
    step: &Step,
) -> (Open<R, S>, Result<Reply, Refusal>)
    ensures terms { result.0.terms ≡ ledger.terms }
    ensures own { (p : Past) → Stands (setup R.ReaderRule S.ColumnScheme ledger.terms) p (books ledger waiting.old cells.old) → (c : Call) × Made (with_lent true step.now) result.1 c (Src.Source.items source.old) (Src.Source.items source.new) × Stands (setup R.ReaderRule S.ColumnScheme result.0.terms) (c ∷ p) (books result.0 waiting.new cells.new) }
    ensures none { (p : Past) (w : List Request) (d : List ℕ) → fits (setup R.ReaderRule S.ColumnScheme ledger.terms) (books ledger waiting.old cells.old) ≡ false → Stands (setup R.ReaderRule S.ColumnScheme ledger.terms) p (books ledger w d) → (c : Call) × Made (with_lent false step.now) result.1 c (Src.Source.items source.old) (Src.Source.items source.new) × Stands (setup R.ReaderRule S.ColumnScheme result.0.terms) (c ∷ p) (books result.0 w d) }
{
    let mut ledger = ledger;
    // By the kind of the step: steps are data that the caller's entries hold, and closures in a row would need a heap.
    match step {
        Step::Offer { item, .. } => {
            let reply = ledger.offer(waiting, cells, item).map(Reply::from);
            (ledger, reply)
        }
        Step::Draw { n, .. } => {
            let reply = ledger.draw(waiting, cells, source, *n).map(Reply::Took);
            (ledger, reply)
        }
        Step::Notice { time, .. } => {
            let reply = ledger
                .notice(waiting, cells, *time)
                .map(|()| Reply::Granted);
            (ledger, reply)
        }
        // Matched, not unwrapped: the ledger in an `Ok` cannot be let go.
        Step::Settle => match ledger.settle(&mut [], &mut []) {
            Ok(_) => unreachable(),
            Err(Unsettled { ledger, refusal }) => (ledger, Err(refusal)),
        },
    }
}

/// Performs one step: its call is lent the ledger's tables, or none.
fn perform<R: ReaderRule, S: ColumnScheme, Src: Source>(
    ledger: Open<R, S>,
    waiting: &mut [Request],
    cells: &mut [u32],
    source: &mut Src,
    step: &Step,
) -> (Open<R, S>, Result<Reply, Refusal>)
    ensures terms { result.0.terms ≡ ledger.terms }
    ensures law { (p : Past) → Stands (setup R.ReaderRule S.ColumnScheme ledger.terms) p (books ledger waiting.old cells.old) → (c : Call) × Made step.now result.1 c (Src.Source.items source.old) (Src.Source.items source.new) × Stands (setup R.ReaderRule S.ColumnScheme result.0.terms) (c ∷ p) (books result.0 waiting.new cells.new) }
{
    if step.is_lent() {
        make(ledger, waiting, cells, source, step)
    } else {
        make(ledger, &mut [], &mut [], source, step)
    }
}

/// Leads an open ledger through the steps of all entries in their order, and enters the replies.
pub fn lead<R: ReaderRule, S: ColumnScheme, Src: Source>(
    ledger: Open<R, S>,
    waiting: &mut [Request],
    cells: &mut [u32],
    source: &mut Src,
    entries: &mut [Entry],
) -> Open<R, S>
    ensures { Leads (setup R.ReaderRule S.ColumnScheme) ledger result waiting.old cells.old waiting.new cells.new (Src.Source.items source.old) (Src.Source.items source.new) entries.old entries.new }
{
    let mut ledger = ledger;
    for entry in entries {
        let (next, reply) = perform(ledger, waiting, cells, source, &entry.step);
        ledger = next;
        entry.reply = Some(reply);
    }
    ledger
}

/// Opens a ledger, performs the steps of all entries in their order, enters the replies, and
/// settles the ledger.
// What opens a ledger comes singly, as to `Open::new`: a struct of it would be made for this call and taken apart in it.
pub fn run<R: ReaderRule, S: ColumnScheme, Src: Source>(
    rule: R,
    scheme: S,
    titles: usize,
    limit: u32,
    waiting: &mut [Request],
    cells: &mut [u32],
    source: &mut Src,
    entries: &mut [Entry],
) -> Result<Settled<R, S>, Unopened<R, S>>
    ensures { Runs (setup R.ReaderRule S.ColumnScheme) (length (S.ColumnScheme.layout scheme).headings) rule scheme titles limit waiting.old cells.old waiting.new cells.new (Src.Source.items source.old) (Src.Source.items source.new) entries.old entries.new result }
{
    let ledger = Open::new(rule, scheme, titles, limit, waiting, cells)?;
    let ledger = lead(ledger, waiting, cells, source, entries);
    // Matched, not unwrapped: the ledger in an `Err` cannot be let go.
    match ledger.settle(waiting, cells) {
        Ok(settled) => Ok(settled),
        Err(_) => unreachable(),
    }
}
