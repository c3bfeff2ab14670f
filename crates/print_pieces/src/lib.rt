#![tactic(auto)]

pub mod lines;
pub mod pieces;
