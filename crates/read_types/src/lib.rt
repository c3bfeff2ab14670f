#![tactic(auto)]

pub mod steps;
pub mod store;
pub mod types;
