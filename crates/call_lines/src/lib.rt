#![tactic(auto)]

pub mod calls;
pub mod lending;
pub mod lines;
pub mod log;
mod numbers;
mod words;
