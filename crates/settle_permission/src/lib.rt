// What a sample and the settings say: its bits, permission, stage limits, the end of a charge.
#![tactic(auto)]

pub mod bits;
pub mod ending;
pub mod limits;
pub mod permission;
