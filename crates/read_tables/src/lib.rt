#![tactic(auto)]

pub mod access;
pub mod arguments;
pub mod search;
