#![tactic(auto)]

pub mod exports;
mod laying;
pub mod texts;
mod words;
