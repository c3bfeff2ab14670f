#![tactic(auto)]

pub mod kinds;
pub mod reading;
pub mod refusal;
pub mod script;
pub mod tables;
pub mod token;
pub mod words;
