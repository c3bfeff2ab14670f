#![tactic(auto)]

pub mod bounded;
pub mod channels;
pub mod far;
pub mod halting;
pub mod held;
pub mod outside;
pub mod places;
pub mod processes;
pub mod records;
pub mod words;
