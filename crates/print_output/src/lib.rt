#![tactic(auto)]

pub mod text;
