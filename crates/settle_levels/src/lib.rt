// Voltages and the points that they are held against: clamps and the base voltage, the comparators, the charge voltage.
#![tactic(auto)]

pub mod clamps;
pub mod comparators;
pub mod voltage;
