//! What a whole run with its report comes to.
use crate::writing::Written;
use ledger::Settled;
use reports::WriteRefusal;

/// The settled ledger of a run, and its report as it was written and read back, or the ground on which it was not written.
pub struct Audit<R, S> {
    pub ledger: Settled<R, S>,
    pub written: Result<Written, WriteRefusal>,
}
