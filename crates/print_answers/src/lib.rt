#![tactic(auto)]

pub mod answers;
mod lists;
mod parts;
