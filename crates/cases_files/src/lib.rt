// Files of stored cases: how they are read and run, and how their answers are compared, counted and
// printed.
#![tactic(auto)]

pub mod agreement;
pub mod files;
pub mod reading;
pub mod refusals;
pub mod tally;
