#![tactic(auto)]

pub mod position;
