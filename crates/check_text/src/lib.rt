#![tactic(auto)]

pub mod bodies;
pub mod check;
pub mod warnings;
