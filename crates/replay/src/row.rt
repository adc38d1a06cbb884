//! A row of steps, and what was replied to each.
ghost use Rattle.std.specs.Prelude.{◌≡◌, Ok};
ghost use Rattle.ledger.specs.Answers.{verdict};
ghost use Rattle.replay.specs.Rows.{Says, is_lent};

use ledger::{Refusal, Verdict};
use records::Item;

/// A call on an open ledger. `lent` says whether it is lent the ledger's own tables, or none, in
/// which case it is refused.
// `lent` is a `bool`, since a step does not hold the tables: they are lent to the whole run.
#[derive(Clone, Copy, Debug, PartialEq, Eq)]
pub enum Step {
    Offer { item: Item, lent: bool },
    /// A draw of so many items from the run's source.
    Draw { n: u16, lent: bool },
    Notice { time: u32, lent: bool },
    /// A settling that is lent no tables. (The one that is lent them ends the run.)
    Settle,
}

impl Step {
    /// Whether the call is lent the ledger's own tables.
    pub(crate) fn is_lent(&self) -> bool
        ensures { result ≡ is_lent self.now }
    {
        match self {
            Step::Offer { lent, .. } | Step::Draw { lent, .. } | Step::Notice { lent, .. } => *lent,
            Step::Settle => false,
        }
    }
}

/// What a call was answered that was not refused.
#[derive(Clone, Copy, Debug, PartialEq, Eq)]
pub enum Reply {
    /// The item is accepted, or the call is granted.
    Granted,
    PassedOver,
    /// A draw took so many items.
    Took(u16),
}

impl From<Verdict> for Reply {
    ghost from_gives = { λ said reply. Says (Ok reply) (verdict (Ok said)) };

    fn from(said: Verdict) -> Reply {
        match said {
            Verdict::Accepted => Reply::Granted,
            Verdict::PassedOver => Reply::PassedOver,
        }
    }
}

/// A step, and the reply to it once it is performed.
#[derive(Clone, Copy, Debug, PartialEq, Eq)]
pub struct Entry {
    pub step: Step,
    pub reply: Option<Result<Reply, Refusal>>,
}
