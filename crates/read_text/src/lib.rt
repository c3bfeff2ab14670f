#![tactic(auto)]

pub mod names;
pub mod payloads;
pub mod processes;
pub mod reading;
pub mod scripts;
pub mod signatures;
pub mod store;
pub mod terms;
pub mod turns;
