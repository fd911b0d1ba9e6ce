// The charger's model, moved by one event or by one record of a log.
#![tactic(auto)]

pub mod clock;
pub mod paging;
pub mod replaying;
pub mod step;
mod valid;
pub mod walking;
