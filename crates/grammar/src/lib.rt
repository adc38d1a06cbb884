//! What the lines of a report's file say, as mathematics over its bytes, and that the files that can be read are just the
//! texts of reports, and just those that the writer gives.
#![tactic(auto)]
