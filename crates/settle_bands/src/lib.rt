// The temperature bands: which one a thermistor's value is in, how long it is held, what two of them come to, and what that does to a charge.
#![tactic(auto)]

pub mod effect;
pub mod holding;
pub mod joined;
pub mod thresholds;
