//! The runs of a ledger, as mathematics over plain lists: the calls since the opening, what they alone
//! determine, and the proof that books kept call by call hold just that.
#![tactic(auto)]
