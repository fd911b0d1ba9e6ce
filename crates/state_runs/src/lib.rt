// A run of written bytes at ascending addresses: judged whole, and what its registers take.
#![tactic(auto)]

pub mod bytes;
pub mod registers;
pub mod run;
