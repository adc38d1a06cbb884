//! The worked cases of the rules: proved of the definitions, and run through a ledger.
#![tactic(auto)]

ghost use Rattle.clicks.specs.Cases.{Cases};

#[cfg(test)]
mod tests;

/// The rules give what the worked cases say.
pub fn worked_cases()
    ensures { Cases }
{}
