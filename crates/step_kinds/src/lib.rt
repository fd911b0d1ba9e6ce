// What events do to a state but for time: what each kind writes, and the settling and flags that every accepted event ends with.
#![tactic(auto)]

pub mod answer;
pub mod change;
pub mod finish;
pub mod plain;
