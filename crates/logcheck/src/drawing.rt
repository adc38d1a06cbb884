//! A ledger that draws a log item by item.
use columns::MonthScheme;
use ledger::{Open, Tallies};
use logs::Log;
use records::{AddressRule, Request};
use std::fmt;

/// More items than a log of this program has.
// An array and no `Vec`: a log's items are printed beside their fates one by one, and an empty place ends them.
const ITEMS: usize = 16;

/// What became of an item that a ledger drew.
#[derive(Clone, Copy)]
pub(crate) enum Fate {
    Accepted,
    PassedOver,
    Refused,
}

impl fmt::Display for Fate {
    fn fmt<W: fmt::Write>(&self, f: &mut fmt::Formatter<W>) -> fmt::Result {
        f.write_str(match self {
            Fate::Accepted => "accepted",
            Fate::PassedOver => "passed over",
            Fate::Refused => "refused",
        })
    }
}

/// The fate of the item that was drawn between these tallies; none where no item was.
fn fate_between(before: Tallies, after: Tallies) -> Option<Fate> {
    if after.presented == before.presented {
        None
    } else if after.refused != before.refused {
        Some(Fate::Refused)
    } else if after.passed_over != before.passed_over {
        Some(Fate::PassedOver)
    } else {
        Some(Fate::Accepted)
    }
}

/// Draws the items of a log one by one, and notes the fate of each.
fn draw_singly(
    ledger: &mut Open<AddressRule, MonthScheme>,
    waiting: &mut [Request],
    cells: &mut [u32],
    bytes: &[u8],
) -> [Option<Fate>; ITEMS] {
    let mut fates = [None; ITEMS];
    let mut log = Log::new(bytes);
    for fate in &mut fates {
        let before = ledger.tallies();
        let _ = ledger.draw(waiting, cells, &mut log, 1);
        *fate = fate_between(before, ledger.tallies());
    }
    fates
}

/// What becomes of the items of a log in a ledger for one title and January 2009.
pub(crate) fn fates(bytes: &[u8]) -> Option<[Option<Fate>; ITEMS]> {
    let mut waiting = [Request::default(); 4];
    let mut cells = [0; 2];
    let scheme = MonthScheme::new(2009, 1).ok()?;
    let mut ledger = Open::new(AddressRule, scheme, 1, 1_000, &waiting, &mut cells).ok()?;
    let fates = draw_singly(&mut ledger, &mut waiting, &mut cells, bytes);
    let _ = ledger.abandon();
    Some(fates)
}
