// The decimal text of a program's output: a record's line and the last line, written into a lent buffer.
#![tactic(auto)]

pub mod decimal;
mod numbers;
pub mod text;
