#![tactic(auto)]

pub mod bare;
pub mod execs;
pub mod faults;
pub mod lowest;
pub mod names;
pub mod passes;
pub mod processes;
pub mod reach;
pub mod verdict;
