// What the model shows: its report, and the STAT pin.
#![tactic(auto)]

pub mod answer;
pub mod line;
pub mod report;
pub mod stat;
