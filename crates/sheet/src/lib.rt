//! Run sheets played on a floor: what a row says, and the lines that a sheet gets.
#![tactic(auto)]

pub mod fault;
pub mod line;
pub mod output;
pub mod player;
pub mod read;
pub mod tally;
pub mod verb;
