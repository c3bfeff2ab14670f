#![tactic(auto)]

pub mod choices;
pub mod missing;
pub mod process;
pub mod rules;
pub mod turns;
