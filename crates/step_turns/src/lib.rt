// What an event does, in one form whatever kind says it: it opens a run with a profile, or it follows.
#![tactic(auto)]

pub mod coded;
pub mod later;
pub mod ranges;
pub mod turn;
